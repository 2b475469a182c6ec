// How a ring is made.
ghost use Rattle.std.specs.Prelude.{◌≡◌, Decides};
ghost use Rattle.leaves.specs.Rings.{AreRadii, RingMade};

use crate::ring::Ring;
use crate::vector::Beacon;
use domain::refusal::Refusal;

impl Ring {
    // The ring of the points at a distance from `a` to `b` from a beacon. Refused with 3 if a number of the beacon is
    // not from -16384 to 16383, else with 4 unless 0 ≤ a ≤ b ≤ 32767.
    pub fn new(bx: i32, by: i32, a: i32, b: i32) -> Result<Ring, Refusal>
        ensures { RingMade bx by a b result }
    {
        let beacon = Beacon::new(bx, by)?;
        if !are_radii(a, b) {
            return Err(Refusal::BadRadii);
        }
        Ok(Ring {
            beacon,
            inner: a as u16,
            outer: b as u16,
        })
    }

    // The ring turned over the line of equal columns and rows: its columns are this one's rows.
    pub(crate) fn turned(self) -> Ring
        ensures beacon { (result.beacon.x ≡ self.beacon.y) × (result.beacon.y ≡ self.beacon.x) }
        ensures radii { (result.inner ≡ self.inner) × (result.outer ≡ self.outer) }
    {
        Ring {
            beacon: self.beacon.turned(),
            inner: self.inner,
            outer: self.outer,
        }
    }
}

// Whether two numbers may be a ring's radii.
fn are_radii(a: i32, b: i32) -> bool
    ensures { Decides result (AreRadii a b) }
{
    0 <= a && a <= b && b <= 32767
}
