// The layers over the readings of a file.
ghost use Rattle.std.specs.Prelude.{◌≡◌, ◌<◌, map, length};
ghost use Rattle.contractor.specs.Layers.{relaxed};
ghost use Rattle.contractor.specs.Means.{means};
ghost use Rattle.survey.specs.Lists.{readings_of};

use contractor::contractor::Contractor;
use layers::fixed::Fixed;
use layers::relaxed::Relaxed;
use panels::reading_list::ReadingList;

// Relaxed over the readings, and Fixed over that. There are more readings than liars.
pub(crate) fn layered<'a, R: Contractor + Copy>(
    list: ReadingList<'a, R>,
    liars: u16,
) -> Fixed<Relaxed<ReadingList<'a, R>>>
    requires { liars < length (readings_of list) }
    ensures { means ⟦<Relaxed<ReadingList<'a, R>> as Contractor>⟧ result.inner ≡ relaxed R.Piece.Domain.maps liars (map (means R.Contractor) (readings_of list.entry)) }
{
    Fixed::new(Relaxed::new(list, usize::from(liars)).unwrap())
}
