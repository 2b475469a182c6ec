// The listings of the two kinds of sheets.
ghost use Rattle.std.specs.Prelude.{IfOk, string_bytes};
ghost use Rattle.dial.specs.Arcs.{dial as dial_maps};
ghost use Rattle.plane.specs.Boxes.{plane as plane_maps};
ghost use Rattle.readings.specs.Requests.{asked as meant_by, meant};
ghost use Rattle.survey.specs.Texts.{Paves, Paving, arc_text, box_text, dial_meaning, plane_meaning};

use crate::listed::listed;
use dial::arc::Arc;
use leaves::arc::ArcReading;
use leaves::plane_reading::PlaneReading;
use plane::plane_box::PlaneBox;
use readings::request::{Asked, Request};
use std::alloc::{AllocError, Global};

// Kept as two: `listed` is the one text; a generic function may not end a sheet of a size that its signature does not show.
fn plane_text(
    alloc: Global,
    request: &Request<PlaneBox, PlaneReading>,
) -> Result<String, AllocError>
    ensures { IfOk result (λ t. Paving plane_maps plane_meaning box_text (meant request.now) (string_bytes t)) }
{
    let readings = request.readings.all();
    let mut memory = [readings[0]; 16];
    let (text, _sheet) = listed(alloc, &mut memory, request)?;
    Ok(text)
}

fn dial_text(alloc: Global, request: &Request<Arc, ArcReading>) -> Result<String, AllocError>
    ensures { IfOk result (λ t. Paving dial_maps dial_meaning arc_text (meant request.now) (string_bytes t)) }
{
    let readings = request.readings.all();
    let mut memory = [readings[0]; 16];
    let (text, _sheet) = listed(alloc, &mut memory, request)?;
    Ok(text)
}

// The listing of what a file asks for, of whichever kind.
pub(crate) fn asked_text(alloc: Global, asked: &Asked) -> Result<String, AllocError>
    ensures { IfOk result (λ t. Paves (meant_by asked.now) (string_bytes t)) }
{
    match asked {
        Asked::Plane(request) => plane_text(alloc, request),
        Asked::Dial(request) => dial_text(alloc, request),
    }
}
