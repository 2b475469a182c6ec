// A stretch of indices, both ends included. One whose `high` is below its `low` has none: no Option says so, since an empty
// stretch is counted and searched like any other, and a list of Options would first have to be sifted.
#[derive(Clone, Copy)]
pub struct Stretch {
    pub low: u32,
    pub high: u32,
}
