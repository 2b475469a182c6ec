// The kinds of sheets that a readings file may ask for.
#[derive(Clone, Copy)]
pub enum Kind {
    Plane,
    Dial,
}
