// Two contractors of any kind over one domain, as a panel.
ghost use Rattle.std.specs.Prelude.{◌≡◌, [], ◌∷◌};
ghost use Rattle.contractor.specs.Meaning.{Sound};
ghost use Rattle.contractor.specs.Means.{means};
ghost use Rattle.std.proofs.Common.{lit≤};

use crate::panel::Panel;
use contractor::contractor::Contractor;
use domain::refusal::Refusal;

#[derive(Drop)]
pub struct Pair<A, B> {
    first: A,
    second: B,
}

impl<A, B> Pair<A, B> {
    pub fn new(first: A, second: B) -> Pair<A, B>
        ensures { (result.first ≡ first) × (result.second ≡ second) }
    {
        Pair { first, second }
    }
}

// Each of the two calls is one match over the members' numbers. One text for both would take the inner calls as closures,
// and match just so.
impl<A: Contractor, B: Contractor<Piece = A::Piece>> Panel for Pair<A, B> {
    type Piece = A::Piece;

    ghost members = { λ p. means A.Contractor p.first ∷ means B.Contractor p.second ∷ [] };

    ghost sound = { λ p. (A.Contractor.sound p.first, (B.Contractor.sound p.second, tt)) };

    ghost few = { λ p. lit≤ tt };

    fn count(&self) -> usize {
        2
    }

    fn keep(&self, member: usize, piece: &A::Piece) -> Result<Option<A::Piece>, Refusal> {
        match member {
            0 => Ok(self.first.keep(piece)),
            1 => Ok(self.second.keep(piece)),
            _ => Err(Refusal::NoSuchMember),
        }
    }

    fn shed(&self, member: usize, piece: &A::Piece) -> Result<Option<A::Piece>, Refusal> {
        match member {
            0 => Ok(self.first.shed(piece)),
            1 => Ok(self.second.shed(piece)),
            _ => Err(Refusal::NoSuchMember),
        }
    }
}
