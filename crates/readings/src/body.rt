// The lines from the start on, for either kind of sheet.
ghost use Rattle.std.specs.Prelude.{◌≡◌};
ghost use Rattle.readings.specs.Files.{Body, Rest};
ghost use Rattle.readings.specs.Lines.{Numbers, numbered};
ghost use Rattle.readings.specs.Requests.{Judges, answer, entered, meant, Further};
ghost use Rattle.readings.specs.Sorts.{EndValue, EndLine, NextLine, StartLine, entering};

use crate::entry::Entry;
use crate::fault::{Fault, on_line};
use crate::line::Line;
use crate::lines::first_line;
use crate::readings::Readings;
use crate::request::Request;
use domain::refusal::Refusal;
use numerals::values::numbers;
use sheet::grain::Grain;

fn end_value<R>(value: &[u8], count: u16) -> Result<Option<R>, Refusal>
    ensures { Numbers 1 (EndValue count) value.now (numbered result) }
{
    let [number] = numbers::<1>(value).ok_or(Refusal::Malformed)?;
    if number != i32::from(count) {
        return Err(Refusal::CountDiffers);
    }
    Ok(None)
}

fn end_line<R>(line: Line<'_>, count: u16) -> Result<Option<R>, Refusal>
    ensures { Judges (EndLine count) line.entry result }
{
    if count == 0 {
        return Err(Refusal::KeyNotDue);
    }
    end_value(line.value(b"end=")?, count)
}

// What a reading comes to after `count` others. A seventeenth is refused for its own sake where it does not fit the sheet
// or its key is another, else since there are sixteen.
fn enter<R: Copy>(judged: Result<R, Refusal>, count: u16) -> Result<Option<R>, Refusal>
    ensures { numbered result ≡ entering count (numbered judged) }
{
    if count < 16 {
        return judged.map(Some);
    }
    match judged {
        Err(
            refusal @ (Refusal::NotAPiece
            | Refusal::BadGrain
            | Refusal::OutOfRange
            | Refusal::BadRadii
            | Refusal::BadCone
            | Refusal::KeyNotDue),
        ) => Err(refusal),
        _ => Err(Refusal::DraftFull),
    }
}

// The line after `count` readings: another reading, or the end.
fn next_line<R: Entry>(line: Line<'_>, count: u16) -> Result<Option<R>, Refusal>
    ensures { Judges (NextLine R.Entry.readings count) line.entry result }
{
    match R::reading(line) {
        Err(Refusal::KeyNotDue) => end_line(line, count),
        judged => enter(judged, count),
    }
}

fn start_line<R: Entry>(line: Line<'_>) -> Result<R::Start, Refusal>
    ensures { Judges (StartLine R.Entry.starts) line.entry result }
{
    R::start(line.value(b"start=")?)
}

// The further readings that the lines after these are, and nothing after their end.
fn more_readings<R: Entry>(first: R, rest: &[u8]) -> Result<Readings<R>, Fault>
    ensures { Further R.Entry.readings first rest.now (answer entered result) }
{
    let mut readings = Readings::of(first);
    let mut left = rest;
    loop {
        let count = readings.len as u16;
        let (line, after) = first_line(left);
        match on_line(5 + u32::from(count), next_line(line, count))? {
            Some(reading) => readings.add(reading),
            None if after.is_empty() => return Ok(readings),
            None => {
                return Err(Fault {
                    refusal: Refusal::KeyNotDue,
                    line: 6 + u32::from(count),
                });
            }
        }
        left = after;
    }
}

// The readings, from line 5 on.
fn read_readings<R: Entry>(rest: &[u8]) -> Result<Readings<R>, Fault>
    ensures { Rest R.Entry.readings 0 rest.now (answer entered result) }
{
    let (line, after) = first_line(rest);
    let first = on_line(5, R::reading(line))?;
    more_readings(first, after)
}

// What the lines from line 4 on ask for.
pub(crate) fn read_body<R: Entry>(
    liars: u16,
    grain: Grain,
    rest: &[u8],
) -> Result<Request<R::Start, R>, Fault>
    ensures { Body R.Entry.starts R.Entry.readings liars grain rest.now (answer meant result) }
{
    let (line, after) = first_line(rest);
    let start = on_line(4, start_line::<R>(line))?;
    let readings = read_readings::<R>(after)?;
    if usize::from(liars) >= readings.len {
        return Err(Fault {
            refusal: Refusal::TooManyLiars,
            line: 2,
        });
    }
    Ok(Request {
        liars,
        grain,
        start,
        readings,
    })
}
