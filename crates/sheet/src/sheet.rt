// A sheet: a contractor, a start and a grain, which stay, and what the turns change.
ghost use Rattle.contractor.specs.Means.{means};
ghost use Rattle.paving.specs.Sheet.{task};
ghost use Rattle.sheet.specs.Shown.{Made};

use crate::grain::Grain;
use crate::store::Store;
use contractor::contractor::Contractor;

#[derive(Drop)]
pub struct Sheet<C: Contractor> {
    pub(crate) contractor: C,
    pub(crate) start: C::Piece,
    pub(crate) grain: Grain,
    pub(crate) store: Store<C::Piece>,
    // Opening and some turns made the store: so no test asks whether the pile, the counters or the sums are near their ends.
    ghost made: { ∥ Made (task C.Piece.Domain.maps (means C.Contractor contractor) start grain.size) store ∥₁ },
}
