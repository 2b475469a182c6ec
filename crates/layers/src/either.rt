// Either of two contractors: the points that are of one set or the other, or of both.
ghost use Rattle.std.specs.Prelude.{◌≡◌};
ghost use Rattle.contractor.specs.Layers.{either};
ghost use Rattle.contractor.specs.Means.{means};
ghost use Rattle.contractor.proofs.Joining.{either_sound};

use contractor::contractor::Contractor;
use domain::domain::Domain;

#[derive(Drop)]
pub struct Either<A, B> {
    first: A,
    second: B,
}

impl<A, B> Either<A, B> {
    pub fn new(first: A, second: B) -> Either<A, B>
        ensures { (result.first ≡ first) × (result.second ≡ second) }
    {
        Either { first, second }
    }
}

// Both has these two bodies with keep and shed exchanged: a shared text would be no shorter than they are.
impl<A: Contractor, B: Contractor<Piece = A::Piece>> Contractor for Either<A, B> {
    type Piece = A::Piece;

    ghost set = { λ c. (either A.Piece.Domain.maps (means A.Contractor c.first) (means B.Contractor c.second)).set };

    ghost kept = { λ c. (either A.Piece.Domain.maps (means A.Contractor c.first) (means B.Contractor c.second)).keep };

    ghost dropped = { λ c. (either A.Piece.Domain.maps (means A.Contractor c.first) (means B.Contractor c.second)).shed };

    ghost sound = { λ c.
        either_sound A.Piece.Domain.maps A.Piece.Domain.lawful _ _ (A.Contractor.sound c.first)
        (B.Contractor.sound c.second) };

    // Both answers are sub-pieces, so that their span is not refused.
    fn keep(&self, piece: &A::Piece) -> Option<A::Piece> {
        piece
            .span(self.first.keep(piece), self.second.keep(piece))
            .unwrap()
    }

    fn shed(&self, piece: &A::Piece) -> Option<A::Piece> {
        let rest = self.first.shed(piece)?;
        self.second.shed(&rest)
    }
}
