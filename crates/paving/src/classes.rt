// What is known of a recorded piece: all its points are of the set, none is, or it was left undecided.
#[derive(Clone, Copy, Debug, PartialEq, Eq)]
pub enum Class {
    Inside,
    Outside,
    Undecided,
}
