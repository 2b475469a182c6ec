// So many columns and so many rows, each number from -MOST - 1 to MOST.
ghost use Rattle.std.specs.Prelude.{◌≡◌, ◌≤◌, pos, negsuc, ◌≤ℤ◌};

use crate::bounds::within;
use domain::refusal::Refusal;

#[derive(Clone, Copy)]
pub(crate) struct Vector<const MOST: u16> {
    pub(crate) x: i16,
    pub(crate) y: i16,
    ghost x_least: { negsuc MOST ≤ℤ x },
    ghost x_most: { x ≤ℤ pos MOST },
    ghost y_least: { negsuc MOST ≤ℤ y },
    ghost y_most: { y ≤ℤ pos MOST },
}

// The point that a ring lies around or a cone opens from. It may lie off the plane.
pub(crate) type Beacon = Vector<16383>;

// Where a side of a cone leads from its beacon.
pub(crate) type Direction = Vector<2047>;

impl<const MOST: u16> Vector<MOST> {
    // Here, and not atop the file: these definitions speak of the type that the file declares.
    ghost use Rattle.domain.specs.Refusals.{Given};
    ghost use Rattle.leaves.specs.Rings.{AreWithin};

    // Refused with 3 if a number is out of its range.
    pub(crate) fn new(x: i32, y: i32) -> Result<Vector<MOST>, Refusal>
        requires { MOST ≤ 32767 }
        ensures { Given result 3 (AreWithin MOST x y) (λ v. (v.x ≡ x) × (v.y ≡ y)) }
    {
        Ok(Vector {
            x: within(x, MOST)?,
            y: within(y, MOST)?,
        })
    }

    // The vector turned over the line of equal columns and rows.
    pub(crate) fn turned(self) -> Vector<MOST>
        ensures { (result.x ≡ self.entry.y) × (result.y ≡ self.entry.x) }
    {
        Vector {
            x: self.y,
            y: self.x,
        }
    }
}
