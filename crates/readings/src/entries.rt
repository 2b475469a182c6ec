// The readings of the plane, rings and cones, and those of the dial, arcs.
ghost use Rattle.std.specs.Prelude.{codes};
ghost use Rattle.readings.specs.Lines.{Keyed, Numbers, numbered};
ghost use Rattle.readings.specs.Requests.{Judges};
ghost use Rattle.readings.specs.Sorts.{BoxValue, ArcValue, BearingValue, RingValue, ConeValue, PlaneLine, DialLine};

use crate::entry::Entry;
use crate::line::Line;
use crate::pieces::{arc_value, box_value};
use crate::rings::{cone_value, ring_value};
use dial::arc::Arc;
use domain::refusal::Refusal;
use leaves::arc::ArcReading;
use leaves::plane_reading::PlaneReading;
use plane::plane_box::PlaneBox;

fn ring_line(line: Line<'_>) -> Result<PlaneReading, Refusal>
    ensures { Judges (Keyed (codes "ring=") (Numbers 4 RingValue)) line.entry result }
{
    ring_value(line.value(b"ring=")?)
}

fn cone_line(line: Line<'_>) -> Result<PlaneReading, Refusal>
    ensures { Judges (Keyed (codes "cone=") (Numbers 6 ConeValue)) line.entry result }
{
    cone_value(line.value(b"cone=")?)
}

impl Entry for PlaneReading {
    type Start = PlaneBox;

    ghost starts = { BoxValue };

    ghost readings = { PlaneLine };

    fn start(value: &[u8]) -> Result<PlaneBox, Refusal> {
        box_value(value)
    }

    fn reading(line: Line<'_>) -> Result<PlaneReading, Refusal> {
        match ring_line(line) {
            Err(Refusal::KeyNotDue) => cone_line(line),
            ring => ring,
        }
    }
}

fn bearing_value(value: &[u8]) -> Result<ArcReading, Refusal>
    ensures { BearingValue value.now (numbered result) }
{
    Ok(ArcReading::from(arc_value(value)?))
}

impl Entry for ArcReading {
    type Start = Arc;

    ghost starts = { ArcValue };

    ghost readings = { DialLine };

    fn start(value: &[u8]) -> Result<Arc, Refusal> {
        arc_value(value)
    }

    fn reading(line: Line<'_>) -> Result<ArcReading, Refusal> {
        bearing_value(line.value(b"arc=")?)
    }
}
