// The records that are made and not yet taken, in a ring of places.
ghost use Rattle.std.specs.Prelude.{◌≡◌, ◌<◌, ◌≤◌, length};

use paving::records::Record;

// An array, a place and a length, since a sheet takes no memory but its own.
#[derive(Drop)]
pub struct Roll<P> {
    pub(crate) items: [Record<P>; 1024],
    pub(crate) first: usize,
    pub(crate) len: usize,
    ghost places: { length items ≡ 1024 },
    ghost begins: { first < 1024 },
    ghost most: { len ≤ 1024 },
}
