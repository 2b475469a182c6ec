// What a turn answers.
ghost use Rattle.std.specs.Prelude.{◌≡◌};
ghost use Rattle.paving.specs.Numbers.{stop_code};

use crate::places::Place;
use crate::records::Record;
use crate::tallies::Tally;
use domain::refusal::Refusal;

// How many steps of a run were accepted, and what refused the next one, if something did.
#[derive(Clone, Copy, Debug, PartialEq, Eq)]
pub struct Ran {
    pub accepted: u32,
    pub refusal: Option<Refusal>,
}

impl Ran {
    // The number of the refusal that stopped the run, or 0.
    pub fn code(&self) -> u8
        ensures { result ≡ stop_code self.now.refusal }
    {
        self.refusal.map_or(0, |refusal| refusal.code())
    }
}

// A refusal is an answer like the others, and no error around them: the rules give each turn its answer, and refused turns
// are among them.
#[derive(Clone, Copy, Debug, PartialEq, Eq)]
pub enum Answer<P> {
    // How many records were made.
    Stepped(u32),
    Ran(Ran),
    Taken(Record<P>),
    Found(Place),
    Tallied(Tally),
    Refused(Refusal),
}
