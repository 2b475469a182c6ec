// A ring around a beacon: the points at a distance from `inner` to `outer`.
ghost use Rattle.std.specs.Prelude.{◌≤◌};

pub mod made;
mod reach;
pub mod reading;

use crate::vector::Beacon;

#[derive(Clone, Copy)]
pub struct Ring {
    beacon: Beacon,
    inner: u16,
    outer: u16,
    ghost ordered: { inner ≤ outer },
    ghost most: { outer ≤ 32767 },
}
