// An arc of the dial: its points are, in order, start, start + 1, … round the ring, `len` of them.
ghost use Rattle.std.specs.Prelude.{◌<◌, ◌≤◌};

pub mod made;
mod order;
pub mod piece;
mod runs;
pub mod shown;

#[derive(Clone, Copy)]
pub struct Arc {
    start: u16,
    len: u16,
    ghost placed: { start < 3600 },
    ghost some: { 0 < len },
    ghost most: { len ≤ 3600 },
}
