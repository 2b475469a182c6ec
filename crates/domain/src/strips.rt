// What is left of a piece without a sub-piece: at most four pieces, in order, given one by one.
ghost use Rattle.domain.specs.Maps.{listed};
ghost use Rattle.std.specs.Prelude.{◌≡◌, [], ◌∷◌, ◌++◌, length, None};
ghost use Rattle.std.specs.Option.{option_to_list};
ghost use Rattle.std.specs.Iterator.{at_most};

use crate::strip_slots::Strips;

impl<P: Copy> Strips<P> {
    // Nothing is left.
    pub fn none() -> Strips<P>
        ensures { listed result ≡ [] }
    {
        Strips {
            first: None,
            second: None,
            third: None,
            fourth: None,
        }
    }

    // One piece is left.
    pub fn one(piece: P) -> Strips<P>
        ensures { listed result ≡ piece ∷ [] }
    {
        Strips {
            first: Some(piece),
            ..Strips::none()
        }
    }
}

impl<P: Copy> Iterator for Strips<P> {
    type Item = P;

    ghost next_gives = { λ s r t. (listed s ≡ option_to_list r ++ listed t) × (r ≡ None → listed s ≡ []) };

    ghost remaining = { λ s. at_most (length (listed s)) };

    // One `if` after another: what a closure changes inside `or_else` is lost to the proof.
    fn next(&mut self) -> Option<P> {
        if self.first.is_some() {
            return self.first.take();
        }
        if self.second.is_some() {
            return self.second.take();
        }
        if self.third.is_some() {
            return self.third.take();
        }
        self.fourth.take()
    }
}
