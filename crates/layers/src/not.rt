// The opposite of a contractor: the points that are not of its set.
ghost use Rattle.std.specs.Prelude.{◌≡◌};
ghost use Rattle.contractor.specs.Layers.{opposite};
ghost use Rattle.contractor.specs.Rearranged.{Alike};
ghost use Rattle.contractor.specs.Means.{means};
ghost use Rattle.contractor.proofs.Joining.{not_sound};

use contractor::contractor::Contractor;

#[derive(Drop)]
pub struct Not<A> {
    inner: A,
}

impl<A: Contractor> Not<A> {
    // Twice has the same maps as none.
    pub fn new(inner: A) -> Not<A>
        ensures value { result.inner ≡ inner }
        ensures twice { Alike (opposite (opposite (means A.Contractor inner))) (means A.Contractor inner) }
    {
        Not { inner }
    }
}

impl<A: Contractor> Contractor for Not<A> {
    type Piece = A::Piece;

    ghost set = { λ c. (opposite (means A.Contractor c.inner)).set };

    ghost kept = { λ c. (opposite (means A.Contractor c.inner)).keep };

    ghost dropped = { λ c. (opposite (means A.Contractor c.inner)).shed };

    ghost sound = { λ c. not_sound A.Piece.Domain.maps _ (A.Contractor.sound c.inner) };

    fn keep(&self, piece: &A::Piece) -> Option<A::Piece> {
        self.inner.shed(piece)
    }

    fn shed(&self, piece: &A::Piece) -> Option<A::Piece> {
        self.inner.keep(piece)
    }
}
