// What a sheet keeps from turn to turn.
use crate::pile::Pile;
use crate::roll::Roll;
use paving::tallies::Points;

#[derive(Drop)]
pub struct Store<P> {
    pub(crate) pile: Pile<P>,
    pub(crate) roll: Roll<P>,
    // The points of the records that were taken.
    pub(crate) taken: Points,
    pub(crate) steps: u32,
    pub(crate) next_label: u32,
}
