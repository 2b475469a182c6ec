// The same readings in another order.
ghost use Rattle.std.specs.Prelude.{map, take};
ghost use Rattle.std.specs.List.Sorted.{IsPermutation};
ghost use Rattle.contractor.specs.Means.{means};
ghost use Rattle.panels.specs.Orders.{SameMaps};

use crate::reading_list::ReadingList;
use contractor::contractor::Contractor;

// Two reading lists with the same readings in some order are rearranged panels: Relaxed over them, and Fixed over
// that, have the same maps. Nothing is done: the contract says it.
pub fn same_readings<'a, 'b, R: Contractor>(one: &ReadingList<'a, R>, other: &ReadingList<'b, R>)
    ensures { IsPermutation (take one.now.len one.now.memory.now) (take other.now.len other.now.memory.now) → SameMaps R.Piece.Domain.maps (map (means R.Contractor) (take one.now.len one.now.memory.now)) (map (means R.Contractor) (take other.now.len other.now.memory.now)) }
{}
