// Both of two contractors: the points that are of both sets.
ghost use Rattle.std.specs.Prelude.{◌≡◌};
ghost use Rattle.contractor.specs.Layers.{both};
ghost use Rattle.contractor.specs.Means.{means};
ghost use Rattle.contractor.proofs.Joining.{both_sound};

use contractor::contractor::Contractor;
use domain::domain::Domain;

#[derive(Drop)]
pub struct Both<A, B> {
    first: A,
    second: B,
}

impl<A, B> Both<A, B> {
    pub fn new(first: A, second: B) -> Both<A, B>
        ensures { (result.first ≡ first) × (result.second ≡ second) }
    {
        Both { first, second }
    }
}

// Either has these two bodies with keep and shed exchanged: a shared text would be no shorter than they are.
impl<A: Contractor, B: Contractor<Piece = A::Piece>> Contractor for Both<A, B> {
    type Piece = A::Piece;

    ghost set = { λ c. (both A.Piece.Domain.maps (means A.Contractor c.first) (means B.Contractor c.second)).set };

    ghost kept = { λ c. (both A.Piece.Domain.maps (means A.Contractor c.first) (means B.Contractor c.second)).keep };

    ghost dropped = { λ c. (both A.Piece.Domain.maps (means A.Contractor c.first) (means B.Contractor c.second)).shed };

    ghost sound = { λ c.
        both_sound A.Piece.Domain.maps A.Piece.Domain.lawful _ _ (A.Contractor.sound c.first)
        (B.Contractor.sound c.second) };

    fn keep(&self, piece: &A::Piece) -> Option<A::Piece> {
        let rest = self.first.keep(piece)?;
        self.second.keep(&rest)
    }

    // Both answers are sub-pieces, so that their span is not refused.
    fn shed(&self, piece: &A::Piece) -> Option<A::Piece> {
        piece
            .span(self.first.shed(piece), self.second.shed(piece))
            .unwrap()
    }
}
