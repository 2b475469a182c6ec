// A cone: the points between the directions u and v from a beacon, counterclockwise from u to v.
ghost use Rattle.std.specs.Prelude.{pos, ◌-ℤ◌, ◌*ℤ◌, ◌<ℤ◌};

pub mod made;
pub mod reading;
mod slopes;

use crate::vector::{Beacon, Direction};

#[derive(Clone, Copy)]
pub struct Cone {
    beacon: Beacon,
    u: Direction,
    v: Direction,
    ghost opens: { pos 0 <ℤ (u.x *ℤ v.y -ℤ u.y *ℤ v.x) },
}
