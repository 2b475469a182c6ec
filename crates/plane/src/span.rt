// A run of columns or of rows of the plane, both ends included.
ghost use Rattle.std.specs.Prelude.{◌≤◌};

mod cuts;
pub mod made;
mod order;

#[derive(Clone, Copy)]
pub struct Span {
    low: u16,
    high: u16,
    ghost ordered: { low ≤ high },
    ghost most: { high ≤ 4095 },
}
