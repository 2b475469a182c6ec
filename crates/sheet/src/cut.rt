// What a step makes of the piece that it takes: pieces to be recorded, and pieces that go back on the pile.
use domain::strip_slots::Strips;

#[derive(Clone, Copy)]
pub struct Cut<P> {
    pub outside: Strips<P>,
    pub inside: Strips<P>,
    pub undecided: Option<P>,
    // What goes back, and what goes back below it.
    pub next: Option<P>,
    pub later: Option<P>,
}
