// A step's write to the store.
ghost use Rattle.std.specs.Prelude.{◌≡◌, ◌<◌, ◌≤◌, ◌++◌, length};
ghost use Rattle.std.specs.Option.{option_to_list};
ghost use Rattle.sheet.specs.Cuts.{cut_entries};
ghost use Rattle.sheet.specs.Piles.{waiting, Exchanged};
ghost use Rattle.sheet.specs.Stores.{Noted, Room, Recorded, Slack};

use crate::cut::Cut;
use crate::pile::Pile;
use crate::store::Store;
use domain::refusal::Refusal;
use paving::classes::Class;

impl<P: Copy> Cut<P> {
    // How many records it comes to.
    pub(crate) fn records(&self) -> usize
        ensures { (result ≡ length (cut_entries self.now)) × (result ≤ 9) }
    {
        self.outside.count() + self.inside.count() + usize::from(self.undecided.is_some())
    }
}

impl<P: Copy> Pile<P> {
    fn push_some(&mut self, piece: Option<P>)
        requires { self.old.len < 40 }
        ensures { waiting self.new ≡ option_to_list piece ++ waiting self.old }
    {
        if let Some(piece) = piece {
            self.push(piece);
        }
    }

    // The top piece leaves the pile, and two others go there, if they are there.
    fn exchange(&mut self, next: Option<P>, later: Option<P>)
        requires { (0 < self.old.len) × (self.old.len < 39) }
        ensures { Exchanged (waiting self.old) (option_to_list next ++ option_to_list later) (waiting self.new) }
    {
        self.pop();
        self.push_some(later);
        self.push_some(next);
    }
}

impl<P: Copy> Store<P> {
    // The records of a cut piece.
    fn note_cut(&mut self, cut: &Cut<P>)
        requires { Room self.old (length (cut_entries cut.now)) }
        ensures { Noted self.old (cut_entries cut.now) self.new }
    {
        self.note_strips(Class::Outside, cut.outside);
        self.note_strips(Class::Inside, cut.inside);
        if let Some(piece) = cut.undecided {
            self.note(Class::Undecided, piece);
        }
    }

    // The top piece leaves the pile, and what it was cut into goes to the roll and back on the pile.
    // Refused with 12, and nothing is changed, where the records exceed the roll's free places.
    pub(crate) fn record(&mut self, cut: Cut<P>) -> Result<u32, Refusal>
        requires { (0 < self.old.pile.len) × Slack self.old }
        ensures { Recorded self.old cut result self.new }
    {
        let records = cut.records();
        if 1024 - self.roll.len < records {
            return Err(Refusal::RollFull);
        }
        self.note_cut(&cut);
        self.pile.exchange(cut.next, cut.later);
        self.steps += 1;
        Ok(records as u32)
    }
}
