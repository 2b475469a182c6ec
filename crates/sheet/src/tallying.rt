// The counts of a sheet.
ghost use Rattle.std.specs.Prelude.{◌≡◌};
ghost use Rattle.domain.specs.Maps.{total};
ghost use Rattle.paving.specs.Turns.{points_of};
ghost use Rattle.paving.specs.declared.answers.Answer.TheVariants.{Tallied};
ghost use Rattle.paving.specs.declared.turns.Turn.TheVariants.{Tally as TallyTurn};
ghost use Rattle.sheet.specs.Piles.{waiting};
ghost use Rattle.sheet.specs.Rolls.{rolled};
ghost use Rattle.contractor.specs.Means.{means};
ghost use Rattle.sheet.specs.Standing.{task_of, Turned};

use crate::sheet::Sheet;
use crate::taking::add_points;
use contractor::contractor::Contractor;
use domain::domain::Domain;
use paving::tallies::{Points, Tally};

impl<C: Contractor> Sheet<C> {
    // The points of the waiting pieces.
    fn points_waiting(&self) -> u64
        ensures { result ≡ total C.Piece.Domain.maps (waiting self.now.store.pile) }
    {
        let pieces = self.store.pile.pieces();
        pieces.iter().map(|piece| piece.count()).sum()
    }

    // The points of the records on the roll.
    fn points_on_roll(&self) -> Points
        ensures { result ≡ points_of (task_of C.Piece.Domain.maps (means C.Contractor) self.now) (rolled self.now.store.roll) }
    {
        let mut points = Points::default();
        let (older, newer) = self.store.roll.as_slices();
        for record in older.iter().chain(newer) {
            add_points(&mut points, record.class, record.piece.count());
        }
        points
    }

    pub fn tally(&self) -> Tally
        ensures { Turned C.Piece.Domain.maps (means C.Contractor) TallyTurn self.now (Tallied result) self.now }
    {
        Tally {
            waiting: self.points_waiting(),
            roll: self.points_on_roll(),
            taken: self.store.taken,
            steps: self.store.steps,
            next_label: self.store.next_label,
        }
    }
}
