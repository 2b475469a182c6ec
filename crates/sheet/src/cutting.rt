// How a step cuts the piece that it takes.
ghost use Rattle.std.specs.Prelude.{◌≡◌, [], ◌∷◌, Some, None};
ghost use Rattle.paving.specs.Steps.{entries, entries_at, back_at};
ghost use Rattle.paving.specs.declared.classes.Class.TheVariants.{Outside};
ghost use Rattle.sheet.specs.Cuts.{CutOf};
ghost use Rattle.contractor.specs.Means.{means};
ghost use Rattle.sheet.specs.Standing.{task_of};

use crate::cut::Cut;
use crate::sheet::Sheet;
use contractor::contractor::Contractor;
use domain::domain::Domain;
use domain::strip_slots::Strips;

impl<P: Copy> Cut<P> {
    // Nothing goes back, and nothing is left undecided.
    fn settled(outside: Strips<P>, inside: Strips<P>) -> Cut<P>
        ensures { result ≡ record { outside = outside; inside = inside; undecided = None; next = None; later = None } }
    {
        Cut {
            outside,
            inside,
            undecided: None,
            next: None,
            later: None,
        }
    }

    // A piece of which nothing is kept.
    pub(crate) fn away(piece: P) -> Cut<P>
        ensures { CutOf result (entries Outside (piece ∷ [])) [] }
    {
        Cut::settled(Strips::one(piece), Strips::none())
    }
}

impl<C: Contractor> Sheet<C> {
    // What becomes of a piece of which this is kept.
    pub(crate) fn cut(&self, piece: &C::Piece, kept: &C::Piece) -> Cut<C::Piece>
        requires { C.Contractor.kept self.now.contractor piece.now ≡ Some kept.now }
        ensures { CutOf result (entries_at (task_of C.Piece.Domain.maps (means C.Contractor) self.now) piece.now (Some kept.now)) (back_at (task_of C.Piece.Domain.maps (means C.Contractor) self.now) (Some kept.now)) }
    {
        let outside = piece.strips(kept).unwrap();
        let Some(rest) = self.contractor.shed(kept) else {
            return Cut::settled(outside, Strips::one(*kept));
        };
        let inside = kept.strips(&rest).unwrap();
        let settled = Cut::settled(outside, inside);
        if rest.count() == 1 {
            return Cut {
                next: Some(rest),
                ..settled
            };
        }
        if rest.size() <= self.grain.size() {
            return Cut {
                undecided: Some(rest),
                ..settled
            };
        }
        let (low, high) = rest.halves().unwrap();
        Cut {
            next: Some(low),
            later: Some(high),
            ..settled
        }
    }
}
