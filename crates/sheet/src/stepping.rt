// Opening a sheet, and its steps.
ghost use Rattle.std.specs.Prelude.{◌≡◌, []};
ghost use Rattle.paving.specs.declared.turns.Turn.TheVariants.{Step as StepTurn};
ghost use Rattle.contractor.specs.Means.{means};
ghost use Rattle.sheet.specs.Standing.{StandsAfter, Turned, step_answer};

use crate::cut::Cut;
use crate::grain::Grain;
use crate::pile::Pile;
use crate::roll::Roll;
use crate::sheet::Sheet;
use crate::store::Store;
use contractor::contractor::Contractor;
use domain::refusal::Refusal;
use paving::tallies::Points;

impl<C: Contractor> Sheet<C> {
    // The start waits, and nothing else is there. Contractor, start and grain are the sheet's own parts, and so the
    // arguments of each function that opens one.
    pub fn open(contractor: C, start: C::Piece, grain: Grain) -> Sheet<C>
        ensures value { (result.contractor ≡ contractor) × ((result.start ≡ start) × (result.grain ≡ grain)) }
        ensures stands { StandsAfter C.Piece.Domain.maps (means C.Contractor) [] result }
    {
        Sheet {
            contractor,
            start,
            grain,
            store: Store {
                pile: Pile::of(start),
                roll: Roll::empty(start),
                taken: Points::default(),
                steps: 0,
                next_label: 0,
            },
        }
    }

    // How many records it made. Refused with 11 where nothing waits, with 12 where its records exceed the roll's free
    // places; a refused step changes nothing.
    pub fn step(&mut self) -> Result<u32, Refusal>
        ensures { Turned C.Piece.Domain.maps (means C.Contractor) StepTurn self.old (step_answer result) self.new }
    {
        let piece = self.store.pile.top().ok_or(Refusal::NothingWaiting)?;
        let Some(kept) = self.contractor.keep(&piece) else {
            return self.store.record(Cut::away(piece));
        };
        let cut = self.cut(&piece, &kept);
        self.store.record(cut)
    }
}
