// A panel of which up to q members may be wrong: the points that all members hold but for at most q.
ghost use Rattle.std.specs.Prelude.{◌≡◌, ◌<◌, length, IfOk};
ghost use Rattle.domain.specs.Refusals.{Given};
ghost use Rattle.contractor.specs.Layers.{relaxed};
ghost use Rattle.contractor.specs.Means.{means};
ghost use Rattle.layers.specs.Facts.{Extremes};
ghost use Rattle.contractor.proofs.Relaxing.{relaxed_sound};

use crate::relaxed::answers::gathered;
use contractor::contractor::Contractor;
use domain::refusal::Refusal;
use panels::panel::Panel;

mod answers;

#[derive(Drop)]
pub struct Relaxed<P: Panel> {
    panel: P,
    liars: usize,
    ghost below: { liars < length (P.Panel.members panel) },
}

impl<P: Panel + Drop> Relaxed<P> {
    // With no liars it has the points that all members have, and with all but one those that some member has.
    // Refused with 8 unless `liars` is below the number of members; the panel is spent either way.
    pub fn new(panel: P, liars: usize) -> Result<Relaxed<P>, Refusal>
        ensures parts { Given result 8 (liars < length (P.Panel.members panel)) (λ c. (c.panel ≡ panel) × (c.liars ≡ liars)) }
        ensures means { IfOk result (λ c. means ⟦<Relaxed<P> as Contractor>⟧ c ≡ relaxed P.Piece.Domain.maps liars (P.Panel.members panel)) }
        ensures extremes { Extremes P.Piece.Domain.maps (P.Panel.members panel) }
    {
        if liars >= panel.count() {
            return Err(Refusal::TooManyLiars);
        }
        Ok(Relaxed { panel, liars })
    }
}

impl<P: Panel> Contractor for Relaxed<P> {
    type Piece = P::Piece;

    ghost set = { λ c. (relaxed P.Piece.Domain.maps c.liars (P.Panel.members c.panel)).set };

    ghost kept = { λ c. (relaxed P.Piece.Domain.maps c.liars (P.Panel.members c.panel)).keep };

    ghost dropped = { λ c. (relaxed P.Piece.Domain.maps c.liars (P.Panel.members c.panel)).shed };

    ghost sound = { λ c.
        relaxed_sound P.Piece.Domain.maps P.Piece.Domain.lawful c.liars (P.Panel.members c.panel) c.below
        (P.Panel.sound c.panel) };

    fn keep(&self, piece: &P::Piece) -> Option<P::Piece> {
        let count = self.panel.count();
        gathered(
            piece,
            count,
            |member| self.panel.keep(member, piece),
            self.liars,
            count - self.liars,
        )
    }

    fn shed(&self, piece: &P::Piece) -> Option<P::Piece> {
        let count = self.panel.count();
        gathered(
            piece,
            count,
            |member| self.panel.shed(member, piece),
            count - self.liars - 1,
            self.liars + 1,
        )
    }
}
