// A contractor: the set it stands for, its two maps, and the calls that give them.
ghost use Rattle.std.specs.Prelude.{◌≡◌, ℕ, Bool, Option as Perhaps};
ghost use Rattle.contractor.specs.Meaning.{Sound, meaning};

use domain::domain::Domain;

// The calls alter nothing and never refuse.
pub trait Contractor {
    type Piece: Domain;

    ghost set: { Self → ℕ → Bool };

    ghost kept: { Self → Self.Piece → Perhaps Self.Piece };

    ghost dropped: { Self → Self.Piece → Perhaps Self.Piece };

    // The piece without points that are not of the set.
    fn keep(&self, piece: &Self::Piece) -> Option<Self::Piece>
        ensures { result ≡ kept self.now piece.now };

    // The piece without points of the set.
    fn shed(&self, piece: &Self::Piece) -> Option<Self::Piece>
        ensures { result ≡ dropped self.now piece.now };

    ghost sound: { (c : Self) → Sound Self.Piece.Domain.maps (meaning (set c) (kept c) (dropped c)) };
}
