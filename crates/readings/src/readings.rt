// From one to sixteen readings. An array and a length: what a request holds lies in fixed memory.
ghost use Rattle.std.specs.Prelude.{◌≡◌, ◌≤◌, length};

#[derive(Drop)]
pub struct Readings<R> {
    pub(crate) items: [R; 16],
    pub(crate) len: usize,
    ghost places: { length items ≡ 16 },
    ghost some: { 1 ≤ len },
    ghost few: { len ≤ 16 },
}
