// What the turns do with a store.
ghost use Rattle.std.specs.Prelude.{[], ◌∷◌, length};
ghost use Rattle.domain.specs.Maps.{listed};
ghost use Rattle.paving.specs.Steps.{entries};
ghost use Rattle.sheet.specs.Stores.{Noted, Room};

use crate::store::Store;
use domain::strip_slots::Strips;
use paving::classes::Class;
use paving::records::Record;

impl<P: Copy> Store<P> {
    // One record more, with the next label.
    pub(crate) fn note(&mut self, class: Class, piece: P)
        requires { Room self.old 1 }
        ensures { Noted self.old (entries class (piece ∷ [])) self.new }
    {
        self.roll.note(Record {
            label: self.next_label,
            class,
            piece,
        });
        self.next_label += 1;
    }

    // One record more for each strip.
    pub(crate) fn note_strips(&mut self, class: Class, strips: Strips<P>)
        requires { Room self.old (length (listed strips)) }
        ensures { Noted self.old (entries class (listed strips)) self.new }
    {
        for strip in strips {
            self.note(class, strip);
        }
    }
}
