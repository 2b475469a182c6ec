// A contractor called again and again, until a call leaves things alike.
ghost use Rattle.std.specs.Prelude.{◌≡◌, Option as Perhaps};
ghost use Rattle.domain.specs.Maps.{Fits};
ghost use Rattle.contractor.specs.Layers.{fixed, settled};
ghost use Rattle.contractor.specs.Means.{means};
ghost use Rattle.layers.specs.Facts.{Settled};
ghost use Rattle.contractor.proofs.Fixing.{fixed_sound};

use contractor::contractor::Contractor;
use domain::domain::Domain;

#[derive(Drop)]
pub struct Fixed<A> {
    inner: A,
}

impl<A: Contractor> Fixed<A> {
    // What it gives is the first that the next call leaves alike.
    pub fn new(inner: A) -> Fixed<A>
        ensures value { result.inner ≡ inner }
        ensures settles { Settled A.Piece.Domain.maps (means A.Contractor inner) }
    {
        Fixed { inner }
    }
}

impl<A: Contractor> Contractor for Fixed<A> {
    type Piece = A::Piece;

    ghost set = { λ c. (fixed A.Piece.Domain.maps (means A.Contractor c.inner)).set };

    ghost kept = { λ c. (fixed A.Piece.Domain.maps (means A.Contractor c.inner)).keep };

    ghost dropped = { λ c. (fixed A.Piece.Domain.maps (means A.Contractor c.inner)).shed };

    ghost sound = { λ c. fixed_sound A.Piece.Domain.maps A.Piece.Domain.lawful _ (A.Contractor.sound c.inner) };

    fn keep(&self, piece: &A::Piece) -> Option<A::Piece> {
        settled(*piece, |rest| self.inner.keep(&rest))
    }

    fn shed(&self, piece: &A::Piece) -> Option<A::Piece> {
        settled(*piece, |rest| self.inner.shed(&rest))
    }
}

// Calls again and again, until a call leaves as many points, and so the same piece. Whatever map the calls give, the
// result is what Fixed gives of it.
fn settled<D: Domain, F: Fn(D) -> Option<D>>(piece: D, call: F) -> Option<D>
    requires callable { F.IsAlwaysCallable call }
    requires fits { (x : D) (r : Perhaps D) → F.post call x r → Fits D.Domain.maps x r }
    ensures { (f : D → Perhaps D) → ((x : D) (r : Perhaps D) → F.post call x r → r ≡ f x) → result ≡ settled D.Domain.maps f (D.Domain.maps.count piece) piece }
{
    let mut rest = piece;
    while let Some(next) = call(rest) {
        if next.count() == rest.count() {
            return Some(rest);
        }
        rest = next;
    }
    None
}
