// What is left of a piece without a sub-piece: at most four pieces, in order. Four places by name, and no array: an array
// of a type parameter asks its generic callers for a bound on its size in memory.
#[derive(Clone, Copy)]
pub struct Strips<P> {
    pub first: Option<P>,
    pub second: Option<P>,
    pub third: Option<P>,
    pub fourth: Option<P>,
}
