// Where a point is.
ghost use Rattle.std.specs.Prelude.{◌≡◌, find as find_in, option_map};
ghost use Rattle.paving.specs.Turns.{found, held, place_on};
ghost use Rattle.paving.specs.declared.turns.Turn.TheVariants.{Find};
ghost use Rattle.sheet.specs.Piles.{waiting};
ghost use Rattle.sheet.specs.Rolls.{rolled};
ghost use Rattle.contractor.specs.Means.{means};
ghost use Rattle.sheet.specs.Standing.{task_of, Turned};

use crate::sheet::Sheet;
use contractor::contractor::Contractor;
use domain::domain::Domain;
use domain::refusal::Refusal;
use paving::places::Place;
use paving::records::Record;

// The first of these records that holds a point. A function of one slice: a search through a chain of two takes half as
// long again.
fn holder<P: Domain>(records: &[Record<P>], point: u32) -> Option<&Record<P>>
    ensures { option_map (λ r. r.now) result ≡ find_in (λ r. P.Domain.maps.holds r.piece point) records.now }
{
    records.iter().find(|record| record.piece.holds(point))
}

impl<C: Contractor> Sheet<C> {
    // Whether a waiting piece holds the point, from the top down.
    fn waits(&self, point: u32) -> bool
        ensures { result ≡ held (task_of C.Piece.Domain.maps (means C.Contractor) self.now) point (waiting self.now.store.pile) }
    {
        let pieces = self.store.pile.pieces();
        pieces.iter().rev().any(|piece| piece.holds(point))
    }

    // Where the point is if it waits nowhere.
    fn place_on_roll(&self, point: u32) -> Place
        ensures { result ≡ place_on (task_of C.Piece.Domain.maps (means C.Contractor) self.now) point (rolled self.now.store.roll) }
    {
        let (older, newer) = self.store.roll.as_slices();
        holder(older, point)
            .or_else(|| holder(newer, point))
            .map_or(Place::Taken, |record| Place::from(record.class))
    }

    // Refused with 14 where it is no point number of the start.
    pub fn find(&self, point: u32) -> Result<Place, Refusal>
        ensures { Turned C.Piece.Domain.maps (means C.Contractor) (Find point) self.now (found result) self.now }
    {
        if !self.start.holds(point) {
            return Err(Refusal::NotAPoint);
        }
        if self.waits(point) {
            return Ok(Place::Waiting);
        }
        Ok(self.place_on_roll(point))
    }
}
