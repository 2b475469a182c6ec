// Turns by name, and the end of a sheet.
ghost use Rattle.std.specs.Prelude.{◌≡◌, MatchResult};
ghost use Rattle.paving.specs.declared.answers.Answer.TheVariants.{Refused, Tallied};
ghost use Rattle.paving.specs.declared.turns.Turn.TheVariants.{Tally as TallyTurn};
ghost use Rattle.contractor.specs.Means.{means};
ghost use Rattle.sheet.specs.Standing.{Turned};

use crate::sheet::Sheet;
use contractor::contractor::Contractor;
use domain::refusal::Refusal;
use paving::answers::Answer;
use paving::tallies::Tally;
use paving::turns::Turn;

impl<C: Contractor> Sheet<C> {
    // What the call that a turn names answers, or its refusal.
    fn answered(&mut self, turn: Turn) -> Result<Answer<C::Piece>, Refusal>
        ensures { MatchResult result (λ answer. Turned C.Piece.Domain.maps (means C.Contractor) turn self.old answer self.new)
            (λ refusal. Turned C.Piece.Domain.maps (means C.Contractor) turn self.old (Refused refusal) self.new) }
    {
        match turn {
            Turn::Step => Ok(Answer::Stepped(self.step()?)),
            Turn::Run(most) => Ok(Answer::Ran(self.run(most))),
            Turn::Take => Ok(Answer::Taken(self.take()?)),
            Turn::Find(point) => Ok(Answer::Found(self.find(point)?)),
            Turn::Tally => Ok(Answer::Tallied(self.tally())),
        }
    }

    // The call that a turn names. A `match`, which proves alone: the borrow checker does not cover `unwrap_or_else(Answer::Refused)`.
    pub fn turn(&mut self, turn: Turn) -> Answer<C::Piece>
        ensures { Turned C.Piece.Domain.maps (means C.Contractor) turn self.old result self.new }
    {
        match self.answered(turn) {
            Ok(answer) => answer,
            Err(refusal) => Answer::Refused(refusal),
        }
    }
}

impl<C: Contractor + Drop> Sheet<C> {
    // Ends the sheet, and gives its tally.
    pub fn close(self) -> Tally
        ensures { Turned C.Piece.Domain.maps (means C.Contractor) TallyTurn self (Tallied result) self }
    {
        let tally = self.tally();
        let Sheet {
            contractor: _contractor,
            start: _,
            grain: _,
            store: _store,
        } = self;
        tally
    }
}
