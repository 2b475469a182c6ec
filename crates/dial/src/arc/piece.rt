// The dial as a domain.
ghost use Rattle.std.specs.Prelude.{◌≡◌, ℕ, ◌<◌, ◌≤◌, true, ◌⊎◌, IfOk, MatchOption};
ghost use Rattle.domain.specs.Maps.{Fits, Holds, Members, Gathered, Smallest, pieces, times};
ghost use Rattle.domain.specs.Refusals.{Given};
ghost use Rattle.dial.specs.Arcs.{dial};
ghost use Rattle.dial.specs.Lawful;

use crate::arc::Arc;
use crate::arc::runs::offset_of;
use domain::domain::Domain;
use domain::refusal::Refusal;
use domain::strip_slots::Strips;
use scan::depth::deep_run;
use scan::powers::log_up;

impl Domain for Arc {
    ghost maps = { dial };

    ghost lawful = { Lawful.lawful };

    fn count(&self) -> u64 {
        u64::from(self.len)
    }

    fn size(&self) -> u32 {
        u32::from(self.len)
    }

    fn number(&self) -> u64 {
        u64::from(self.start) * 4096 + u64::from(self.len)
    }

    fn from_number(number: u64) -> Result<Arc, Refusal> {
        let start = u16::try_from(number / 4096).map_err(|_| Refusal::NotAPiece)?;
        Arc::new(start, (number % 4096) as u16)
    }

    fn holds(&self, point: u32) -> bool {
        point < 3600 && offset_of(self.start, point as u16) < self.len
    }

    fn is_within(&self, outer: &Arc) -> bool {
        outer.begin_of(self) + self.len <= outer.len
    }

    fn halves(&self) -> Result<(Arc, Arc), Refusal> {
        if self.len == 1 {
            return Err(Refusal::NotAPiece);
        }
        let low = self.len / 2;
        Ok((self.run(0, low), self.run(low, self.len - low)))
    }

    fn strips(&self, inner: &Arc) -> Result<Strips<Arc>, Refusal> {
        if !inner.is_within(self) {
            return Err(Refusal::NotAPiece);
        }
        let begin = self.begin_of(inner);
        let end = begin + inner.len;
        Ok(Strips {
            first: self.strip(0, begin),
            second: self.strip(end, self.len - end),
            ..Strips::none()
        })
    }

    // The span is the smallest sub-piece that holds the points of both.
    fn span(&self, one: Option<Arc>, other: Option<Arc>) -> Result<Option<Arc>, Refusal>
        ensures value { Given result 1 (Fits dial self.now one × Fits dial self.now other) (λ s. s ≡ dial.span self.now one other) }
        ensures smallest { IfOk result (λ s. Smallest dial self.now (λ n. Holds dial one n ⊎ Holds dial other n) s) }
    {
        if !self.takes(&one) || !self.takes(&other) {
            return Err(Refusal::NotAPiece);
        }
        match (one, other) {
            (Some(p), Some(q)) => Ok(Some(self.spanning(&p, &q))),
            _ => Ok(one.or(other)),
        }
    }

    // The gathering is the smallest sub-piece that holds every point that at least `depth` members hold.
    fn gather(&self, members: &[u64], depth: usize) -> Result<Option<Arc>, Refusal>
        ensures value { Given result 1 ((0 < depth) × Members dial self.now members.now) (λ s. Gathered dial self.now members.now depth s) }
        ensures smallest { IfOk result (λ s. MatchOption (pieces dial members.now) ⊥ (λ ps. Smallest dial self.now (λ n. depth ≤ times dial n ps) s)) }
    {
        if depth == 0 || !self.has_members(members) {
            return Err(Refusal::NotAPiece);
        }
        Ok(self.along(deep_run(self, members, depth)))
    }

    fn height(&self) -> u32 {
        log_up(u32::from(self.len))
    }
}
