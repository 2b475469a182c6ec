// The two rails as a domain.
ghost use Rattle.std.specs.Prelude.{◌≡◌};
ghost use Rattle.domain.specs.Maps.{Fits};
ghost use Rattle.domain.specs.Refusals.{Given};
ghost use Rattle.edges.specs.Rails.{numbered, joined, of_points, taken_up, rails};
ghost use Rattle.edges.specs.Lawful;

use crate::rail::Rail;
use domain::domain::Domain;
use domain::refusal::Refusal;
use domain::strip_slots::Strips;
use scan::depth::{Side, depth_at};
use scan::stretch::Stretch;

impl Rail {
    fn join(one: Rail, other: Rail) -> Rail
        ensures { result ≡ joined one other }
    {
        if one == other { one } else { Rail::Both }
    }

    fn of_points(port: bool, starboard: bool) -> Option<Rail>
        ensures { result ≡ of_points port starboard }
    {
        match (port, starboard) {
            (true, true) => Some(Rail::Both),
            (true, false) => Some(Rail::Port),
            (false, true) => Some(Rail::Starboard),
            (false, false) => None,
        }
    }
}

// Port before starboard, whichever piece the members are gathered in.
impl Side for Rail {
    ghost extent = { λ _ n. taken_up (numbered n) };

    fn stretch(&self, member: u64) -> Stretch {
        match Rail::from_number(member) {
            Ok(Rail::Port) => Stretch { low: 0, high: 0 },
            Ok(Rail::Starboard) => Stretch { low: 1, high: 1 },
            Ok(Rail::Both) => Stretch { low: 0, high: 1 },
            Err(_) => Stretch { low: 1, high: 0 },
        }
    }
}

impl Domain for Rail {
    ghost maps = { rails };

    ghost lawful = { Lawful.lawful };

    fn count(&self) -> u64 {
        u64::from(self.size())
    }

    fn size(&self) -> u32 {
        1 + self.height()
    }

    fn number(&self) -> u64 {
        *self as u64
    }

    fn from_number(number: u64) -> Result<Rail, Refusal> {
        match number {
            0 => Ok(Rail::Port),
            1 => Ok(Rail::Starboard),
            2 => Ok(Rail::Both),
            _ => Err(Refusal::NotAPiece),
        }
    }

    fn holds(&self, point: u32) -> bool {
        match self {
            Rail::Port => point == 0,
            Rail::Starboard => point == 1,
            Rail::Both => point < 2,
        }
    }

    fn is_within(&self, outer: &Rail) -> bool {
        *outer == Rail::Both || self == outer
    }

    fn halves(&self) -> Result<(Rail, Rail), Refusal> {
        match self {
            Rail::Both => Ok((Rail::Port, Rail::Starboard)),
            _ => Err(Refusal::NotAPiece),
        }
    }

    fn strips(&self, inner: &Rail) -> Result<Strips<Rail>, Refusal> {
        if !inner.is_within(self) {
            return Err(Refusal::NotAPiece);
        }
        match (*self, *inner) {
            (Rail::Both, Rail::Port) => Ok(Strips::one(Rail::Starboard)),
            (Rail::Both, Rail::Starboard) => Ok(Strips::one(Rail::Port)),
            _ => Ok(Strips::none()),
        }
    }

    fn span(&self, one: Option<Rail>, other: Option<Rail>) -> Result<Option<Rail>, Refusal>
        ensures { Given result 1 (Fits rails self.now one × Fits rails self.now other) (λ s. s ≡ rails.span self.now one other) }
    {
        if !self.takes(&one) || !self.takes(&other) {
            return Err(Refusal::NotAPiece);
        }
        match (one, other) {
            (Some(p), Some(q)) => Ok(Some(Rail::join(p, q))),
            _ => Ok(one.or(other)),
        }
    }

    fn gather(&self, members: &[u64], depth: usize) -> Result<Option<Rail>, Refusal> {
        if depth == 0 || !self.has_members(members) {
            return Err(Refusal::NotAPiece);
        }
        let port = depth_at(self, members, 0) >= depth;
        let starboard = depth_at(self, members, 1) >= depth;
        Ok(Rail::of_points(port, starboard))
    }

    fn height(&self) -> u32 {
        u32::from(*self == Rail::Both)
    }
}
