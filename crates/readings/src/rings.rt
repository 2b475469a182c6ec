// Readings of the plane by their numbers.
ghost use Rattle.readings.specs.Lines.{Numbers, numbered};
ghost use Rattle.readings.specs.Sorts.{RingValue, ConeValue};

use domain::refusal::Refusal;
use leaves::cone::Cone;
use leaves::plane_reading::PlaneReading;
use leaves::ring::Ring;
use numerals::values::numbers;

// Refused with 16 for what is not four numbers, with 3 and 4 for numbers of no ring.
pub(crate) fn ring_value(value: &[u8]) -> Result<PlaneReading, Refusal>
    ensures { Numbers 4 RingValue value.now (numbered result) }
{
    let [bx, by, a, b] = numbers::<4>(value).ok_or(Refusal::Malformed)?;
    Ok(PlaneReading::from(Ring::new(bx, by, a, b)?))
}

// Refused with 16 for what is not six numbers, with 3 and 5 for numbers of no cone.
pub(crate) fn cone_value(value: &[u8]) -> Result<PlaneReading, Refusal>
    ensures { Numbers 6 ConeValue value.now (numbered result) }
{
    let [bx, by, ux, uy, vx, vy] = numbers::<6>(value).ok_or(Refusal::Malformed)?;
    Ok(PlaneReading::from(Cone::new(bx, by, ux, uy, vx, vy)?))
}
