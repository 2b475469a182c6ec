// The laws of a sheet, over any contractor.
ghost use Rattle.std.specs.Prelude.{◌≡◌, ◌+◌, ◌*◌};
ghost use Rattle.contractor.specs.Means.{means};
ghost use Rattle.paving.specs.Laws.{PavingLaws};

use contractor::contractor::Contractor;
use domain::domain::Domain;

// The most steps that any sheet from `start` accepts: one less than twice its points.
//
// Its second clause is all the laws. Whatever the grain, and after every list of turns from an opening: the pieces
// taken, on the roll and waiting share out the start, what records say is true of the contractor's set, and the sheet
// stays within its limits. A sheet over a rearranged contractor answers the same turns alike.
pub fn most_steps<C: Contractor>(contractor: &C, start: &C::Piece) -> u64
    ensures value { result + 1 ≡ 2 * C.Piece.Domain.maps.count start.now }
    ensures laws { PavingLaws C.Piece.Domain.maps (means C.Contractor contractor.now) start.now }
{
    2 * start.count() - 1
}
