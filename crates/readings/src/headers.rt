// The first lines of a readings file: the sheet, the liars, the grain.
ghost use Rattle.readings.specs.Lines.{Numbers, numbered};
ghost use Rattle.readings.specs.Requests.{Judges};
ghost use Rattle.readings.specs.Sorts.{SheetLine, SheetValue, LiarsLine, LiarsValue, GrainLine, GrainValue};

use crate::kind::Kind;
use crate::line::Line;
use domain::refusal::Refusal;
use numerals::values::numbers;
use sheet::grain::Grain;

fn sheet_value(value: &[u8]) -> Result<Kind, Refusal>
    ensures { SheetValue value.now (numbered result) }
{
    if value == b"plane".as_slice() {
        return Ok(Kind::Plane);
    }
    if value == b"dial".as_slice() {
        return Ok(Kind::Dial);
    }
    Err(Refusal::Malformed)
}

// Each key of a file has such a function of one line: a text for all of them would take the reader of the value as a
// closure, and be longer than they are.
// Refused with 15 for another key, with 16 for another name.
pub(crate) fn sheet_line(line: Line<'_>) -> Result<Kind, Refusal>
    ensures { Judges SheetLine line.entry result }
{
    sheet_value(line.value(b"sheet=")?)
}

fn liars_value(value: &[u8]) -> Result<u16, Refusal>
    ensures { Numbers 1 LiarsValue value.now (numbered result) }
{
    let [liars] = numbers::<1>(value).ok_or(Refusal::Malformed)?;
    u16::try_from(liars).map_err(|_| Refusal::Malformed)
}

// Refused with 15 for another key, with 16 for what is no number from 0 to 65535.
pub(crate) fn liars_line(line: Line<'_>) -> Result<u16, Refusal>
    ensures { Judges LiarsLine line.entry result }
{
    liars_value(line.value(b"liars=")?)
}

fn grain_value(value: &[u8]) -> Result<Grain, Refusal>
    ensures { Numbers 1 GrainValue value.now (numbered result) }
{
    let [size] = numbers::<1>(value).ok_or(Refusal::Malformed)?;
    Grain::new(u32::try_from(size).map_err(|_| Refusal::BadGrain)?)
}

// Refused with 15 for another key, with 16 for what is no number, with 2 for what is no grain.
pub(crate) fn grain_line(line: Line<'_>) -> Result<Grain, Refusal>
    ensures { Judges GrainLine line.entry result }
{
    grain_value(line.value(b"grain=")?)
}
