// Reading a readings file.
ghost use Rattle.readings.specs.Files.{Bodies, Comes, Exact, Lines};
ghost use Rattle.readings.specs.Requests.{answer, asked};

use crate::body::read_body;
use crate::fault::{Fault, on_line};
use crate::headers::{grain_line, liars_line, sheet_line};
use crate::kind::Kind;
use crate::lines::first_line;
use crate::request::Asked;
use domain::refusal::Refusal;
use leaves::arc::ArcReading;
use leaves::plane_reading::PlaneReading;
use sheet::grain::Grain;

// The lines from the start on, as the sheet's kind has them.
// Liars, grain and rest come together here and in `read_body` alone: a struct of them would be one name more.
fn read_kind(kind: Kind, liars: u16, grain: Grain, rest: &[u8]) -> Result<Asked, Fault>
    ensures { Bodies kind liars grain rest.now (answer asked result) }
{
    match kind {
        Kind::Plane => Ok(Asked::Plane(read_body::<PlaneReading>(liars, grain, rest)?)),
        Kind::Dial => Ok(Asked::Dial(read_body::<ArcReading>(liars, grain, rest)?)),
    }
}

fn read_lines(file: &[u8]) -> Result<Asked, Fault>
    ensures { Lines file.now (answer asked result) }
{
    let (line, rest) = first_line(file);
    let kind = on_line(1, sheet_line(line))?;
    let (line, rest) = first_line(rest);
    let liars = on_line(2, liars_line(line))?;
    let (line, rest) = first_line(rest);
    let grain = on_line(3, grain_line(line))?;
    read_kind(kind, liars, grain, rest)
}

// What a file asks for, or its first fault. Its size is looked at before its lines. It reads exactly the files that
// have the form, and gives what they are written of.
pub fn read(file: &[u8]) -> Result<Asked, Fault>
    ensures value { Comes file.now (answer asked result) }
    ensures form { Exact file.now (answer asked result) }
{
    if file.len() > 4096 {
        return Err(Fault {
            refusal: Refusal::FileTooLarge,
            line: 0,
        });
    }
    read_lines(file)
}
