// A panel: so many contractors over one domain, known by their numbers from 0 on.
ghost use Rattle.std.specs.Prelude.{◌≡◌, ◌<◌, ◌≤◌, List, length};
ghost use Rattle.std.specs.List.{AllByRecursion};
ghost use Rattle.domain.specs.Refusals.{Given};
ghost use Rattle.contractor.specs.Meaning.{Meaning, Sound};
ghost use Rattle.panels.specs.Panels.{Kept, Shed};

use domain::domain::Domain;
use domain::refusal::Refusal;

// The calls alter nothing, and refuse only, with 9, a number that is no member's.
pub trait Panel {
    type Piece: Domain;

    ghost members: { Self → List (Meaning Self.Piece) };

    // How many members there are.
    fn count(&self) -> usize
        ensures { result ≡ length (members self.now) };

    // What a member keeps of a piece.
    fn keep(&self, member: usize, piece: &Self::Piece) -> Result<Option<Self::Piece>, Refusal>
        ensures { Given result 9 (member < length (members self.now)) (λ o. Kept (members self.now) member piece.now o) };

    // What a member sheds of a piece.
    fn shed(&self, member: usize, piece: &Self::Piece) -> Result<Option<Self::Piece>, Refusal>
        ensures { Given result 9 (member < length (members self.now)) (λ o. Shed (members self.now) member piece.now o) };

    // By recursion, and not std's `All` by index: the theorems on layers are stated of it.
    ghost sound: { (p : Self) → AllByRecursion (Sound Self.Piece.Domain.maps) (members p) };

    ghost few: { (p : Self) → length (members p) ≤ 16 };
}
