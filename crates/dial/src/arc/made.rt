// How an arc is made, and what it is made of.
ghost use Rattle.std.specs.Prelude.{◌≡◌, Some, None, MatchResult};
ghost use Rattle.domain.specs.Refusals.{Given, code};
ghost use Rattle.dial.specs.Arcs.{AreArc, arc_of};

use crate::arc::Arc;
use domain::refusal::Refusal;

impl Arc {
    // The arc of `len` points from `start` on; refused with 1 unless start is below 3600 and len from 1 to 3600.
    pub fn new(start: u16, len: u16) -> Result<Arc, Refusal>
        ensures value { Given result 1 (AreArc start len) (λ a. (a.start ≡ start) × (a.len ≡ len)) }
        ensures made { MatchResult result (λ a. arc_of start len ≡ Some a) (λ e. (arc_of start len ≡ None) × (code e ≡ 1)) }
    {
        if start >= 3600 || len == 0 || len > 3600 {
            return Err(Refusal::NotAPiece);
        }
        Ok(Arc { start, len })
    }

    pub fn start(&self) -> u16
        ensures { result ≡ self.now.start }
    {
        self.start
    }

    // How many points it has.
    pub fn len(&self) -> u16
        ensures { result ≡ self.now.len }
    {
        self.len
    }
}
