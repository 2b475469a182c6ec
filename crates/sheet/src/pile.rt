// The pieces that wait, the next one last.
ghost use Rattle.std.specs.Prelude.{◌≡◌, ◌≤◌, length};

// An array and a length, since a sheet takes no memory but its own.
#[derive(Drop)]
pub struct Pile<P> {
    pub(crate) items: [P; 40],
    pub(crate) len: usize,
    ghost places: { length items ≡ 40 },
    ghost most: { len ≤ 40 },
}
