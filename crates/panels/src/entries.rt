// Readings at the front of memory that the caller lends.
ghost use Rattle.std.specs.Prelude.{◌≤◌, length};

pub mod places;

#[derive(Drop)]
pub struct Entries<'a, R> {
    pub(crate) memory: &'a [R],
    pub(crate) len: usize,
    ghost few: { len ≤ 16 },
    ghost fits: { len ≤ length memory.now },
}
