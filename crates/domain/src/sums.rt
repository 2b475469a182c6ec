// What follows from the laws of a domain, once for every domain.
ghost use Rattle.std.specs.Prelude.{◌≡◌, ◌+◌, true};
ghost use Rattle.domain.specs.Laws.{Consequences};
ghost use Rattle.domain.specs.Maps.{total};
ghost use Rattle.domain.specs.Refusals.{Given};

use crate::domain::Domain;
use crate::refusal::Refusal;

// How many points `whole` has besides those of its sub-piece `part`: as many as the strips between them.
// Its second clause holds of every piece of the domain, and not only of these two.
pub fn points_left<P: Domain>(whole: &P, part: &P) -> Result<u64, Refusal>
    ensures value { Given result 1 (P.Domain.maps.within part.now whole.now ≡ true) (λ n. (n ≡ total P.Domain.maps (P.Domain.maps.strips whole.now part.now)) × (P.Domain.maps.count part.now + n ≡ P.Domain.maps.count whole.now)) }
    ensures always { Consequences P.Domain.maps }
{
    if !part.is_within(whole) {
        return Err(Refusal::NotAPiece);
    }
    Ok(whole.count() - part.count())
}
