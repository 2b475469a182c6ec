// A domain: the maps over its pieces, the laws that they keep, and the calls that give them.
ghost use Rattle.std.specs.Prelude.{◌≡◌, ◌<◌, true, Some, None, Decides, MatchResult};
ghost use Rattle.domain.specs.Laws.{Laws};
ghost use Rattle.domain.specs.Maps.{Maps, Fits, Member, Members, Gathered, listed};
ghost use Rattle.domain.specs.Refusals.{Given, code};

use crate::refusal::Refusal;
use crate::strip_slots::Strips;

// The calls alter nothing, and each refuses, with 1, only where its map has no value.
pub trait Domain: Copy {
    ghost maps: { Maps Self };

    // How many points the piece has.
    fn count(&self) -> u64
        ensures { result ≡ maps.count self.now };

    fn size(&self) -> u32
        ensures { result ≡ maps.size self.now };

    fn number(&self) -> u64
        ensures { result ≡ maps.number self.now };

    // The piece of a number; refused where it is no piece's.
    fn from_number(number: u64) -> Result<Self, Refusal>
        ensures { MatchResult result (λ p. maps.piece number ≡ Some p) (λ e. (maps.piece number ≡ None) × (code e ≡ 1)) };

    // Whether the piece holds the point of a number. It does not hold what is no point's number.
    fn holds(&self, point: u32) -> bool
        ensures { result ≡ maps.holds self.now point };

    // Whether this is a sub-piece of `outer`.
    fn is_within(&self, outer: &Self) -> bool
        ensures { result ≡ maps.within self.now outer.now };

    // Whether a number is that of a sub-piece.
    fn has_member(&self, number: u64) -> bool
        ensures { Decides result (Member maps self.now number) }
    {
        Self::from_number(number).is_ok_and(|piece| piece.is_within(self))
    }

    // Whether each number of a list is that of a sub-piece.
    fn has_members(&self, numbers: &[u64]) -> bool
        ensures { Decides result (Members maps self.now numbers.now) }
    {
        numbers.iter().all(|&number| self.has_member(number))
    }

    // Whether what is given, if anything, is a sub-piece.
    fn takes(&self, given: &Option<Self>) -> bool
        ensures { Decides result (Fits maps self.now given.now) }
    {
        given.is_none_or(|piece| piece.is_within(self))
    }

    // The low and the high half; refused where there is one point.
    fn halves(&self) -> Result<(Self, Self), Refusal>
        ensures { Given result 1 (1 < maps.count self.now) (λ h. h ≡ maps.halves self.now) };

    // The piece without `inner`; refused where that is no sub-piece.
    fn strips(&self, inner: &Self) -> Result<Strips<Self>, Refusal>
        ensures { Given result 1 (maps.within inner.now self.now ≡ true) (λ s. listed s ≡ maps.strips self.now inner.now) };

    // The smallest piece in this one that holds both; refused where one is no sub-piece.
    fn span(&self, one: Option<Self>, other: Option<Self>) -> Result<Option<Self>, Refusal>
        ensures { Given result 1 (Fits maps self.now one × Fits maps self.now other) (λ s. s ≡ maps.span self.now one other) };

    // In this piece, what at least `depth` of the numbered members hold; refused at depth 0, and where a
    // number is no sub-piece's.
    fn gather(&self, members: &[u64], depth: usize) -> Result<Option<Self>, Refusal>
        ensures { Given result 1 ((0 < depth) × Members maps self.now members.now) (λ s. Gathered maps self.now members.now depth s) };

    fn height(&self) -> u32
        ensures { result ≡ maps.height self.now };

    ghost lawful: { Laws maps };
}
