// Pieces by their numbers.
ghost use Rattle.readings.specs.Lines.{numbered};
ghost use Rattle.readings.specs.Sorts.{BoxValue, ArcValue};

use crate::naturals::naturals;
use dial::arc::Arc;
use domain::refusal::Refusal;
use plane::plane_box::PlaneBox;

// Refused with 16 for what is not four numbers, with 1 for numbers of no box.
pub(crate) fn box_value(value: &[u8]) -> Result<PlaneBox, Refusal>
    ensures { BoxValue value.now (numbered result) }
{
    let [x0, y0, x1, y1] = naturals::<4>(value)?;
    PlaneBox::new(x0, y0, x1, y1)
}

// Refused with 16 for what is not two numbers, with 1 for numbers of no arc.
pub(crate) fn arc_value(value: &[u8]) -> Result<Arc, Refusal>
    ensures { ArcValue value.now (numbered result) }
{
    let [start, len] = naturals::<2>(value)?;
    Arc::new(start, len)
}
