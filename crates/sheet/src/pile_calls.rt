// What is done with the pieces that wait. What `push` shares with the list of a file's readings is said there.
ghost use Rattle.std.specs.Prelude.{◌≡◌, ◌+◌, ◌<◌, Bool, List, [], ◌∷◌, length, reverse, MatchOption};
ghost use Rattle.sheet.specs.Piles.{waiting, Top, Popped};

use crate::pile::Pile;

impl<P: Copy> Pile<P> {
    // One piece waits.
    pub(crate) fn of(piece: P) -> Pile<P>
        ensures { waiting result ≡ piece ∷ [] }
    {
        Pile {
            items: [piece; 40],
            len: 1,
        }
    }

    // The next piece.
    pub(crate) fn top(&self) -> Option<P>
        ensures { Top (waiting self.now) result }
    {
        self.pieces().last().copied()
    }

    // The pieces that wait, the next one last.
    pub(crate) fn pieces(&self) -> &[P]
        ensures { reverse result.now ≡ waiting self.now }
    {
        &self.items[..self.len]
    }

    pub(crate) fn pop(&mut self)
        requires { 0 < self.old.len }
        ensures { Popped (waiting self.old) (waiting self.new) }
    {
        self.len -= 1;
    }

    pub(crate) fn push(&mut self, piece: P)
        requires { self.old.len < 40 }
        ensures { waiting self.new ≡ piece ∷ waiting self.old }
    {
        self.items[self.len] = piece;
        self.len += 1;
    }
}
