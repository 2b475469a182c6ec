// Steps in a row.
ghost use Rattle.paving.specs.declared.answers.Answer.TheVariants.{Ran as RanFor};
ghost use Rattle.paving.specs.declared.turns.Turn.TheVariants.{Run};
ghost use Rattle.contractor.specs.Means.{means};
ghost use Rattle.sheet.specs.Standing.{Turned};

use crate::sheet::Sheet;
use contractor::contractor::Contractor;
use paving::answers::Ran;

impl<C: Contractor> Sheet<C> {
    // Steps until `most` are accepted, or one is refused. Never refused itself.
    pub fn run(&mut self, most: u32) -> Ran
        ensures { Turned C.Piece.Domain.maps (means C.Contractor) (Run most) self.old (RanFor result) self.new }
    {
        for accepted in 0..most {
            if let Err(refusal) = self.step() {
                return Ran {
                    accepted,
                    refusal: Some(refusal),
                };
            }
        }
        Ran {
            accepted: most,
            refusal: None,
        }
    }
}
