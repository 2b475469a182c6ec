// Two panels as one, the first's members first.
ghost use Rattle.std.specs.Prelude.{◌≡◌, ◌+◌, ◌≤◌, ◌++◌, length, IfOk};
ghost use Rattle.domain.specs.Refusals.{Given};
ghost use Rattle.contractor.specs.Meaning.{Sound};
ghost use Rattle.panels.specs.Joining.{joined_sound, joined_few};

use crate::panel::Panel;
use domain::refusal::Refusal;

#[derive(Drop)]
pub struct Joined<P: Panel, Q: Panel<Piece = P::Piece>> {
    first: P,
    second: Q,
    ghost together: { length (P.Panel.members first) + length (Q.Panel.members second) ≤ 16 },
}

impl<P: Panel + Drop, Q: Panel<Piece = P::Piece> + Drop> Joined<P, Q> {
    // Refused with 10 where there would be more than sixteen members; the panels are spent either way.
    pub fn new(first: P, second: Q) -> Result<Joined<P, Q>, Refusal>
        ensures parts { Given result 10 (length (P.Panel.members first) + length (Q.Panel.members second) ≤ 16) (λ j. (j.first ≡ first) × (j.second ≡ second)) }
        ensures members { IfOk result (λ j. ⟦<Joined<P, Q> as Panel>⟧.members j ≡ P.Panel.members first ++ Q.Panel.members second) }
    {
        if first.count() + second.count() > 16 {
            return Err(Refusal::PanelTooLarge);
        }
        Ok(Joined { first, second })
    }
}

// A number below the first panel's count is a member of the first; the others count on from there. Each of the two
// calls is one such choice, of two arms; one text for both would take the four inner calls as closures.
impl<P: Panel, Q: Panel<Piece = P::Piece>> Panel for Joined<P, Q> {
    type Piece = P::Piece;

    ghost members = { λ p. P.Panel.members p.first ++ Q.Panel.members p.second };

    ghost sound = { λ p.
        joined_sound (P.Panel.members p.first) (Q.Panel.members p.second) (Sound P.Piece.Domain.maps)
        (P.Panel.sound p.first) (Q.Panel.sound p.second) };

    ghost few = { λ p. joined_few (P.Panel.members p.first) (Q.Panel.members p.second) p.together };

    fn count(&self) -> usize {
        self.first.count() + self.second.count()
    }

    fn keep(&self, member: usize, piece: &P::Piece) -> Result<Option<P::Piece>, Refusal> {
        match member.checked_sub(self.first.count()) {
            None => self.first.keep(member, piece),
            Some(number) => self.second.keep(number, piece),
        }
    }

    fn shed(&self, member: usize, piece: &P::Piece) -> Result<Option<P::Piece>, Refusal> {
        match member.checked_sub(self.first.count()) {
            None => self.first.shed(member, piece),
            Some(number) => self.second.shed(number, piece),
        }
    }
}
