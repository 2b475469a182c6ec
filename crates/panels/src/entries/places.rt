// The front of lent memory, place by place.
ghost use Rattle.std.specs.Prelude.{take};

use crate::entered::Entered;
use crate::entries::Entries;

impl<'a, R: Copy> Entered for Entries<'a, R> {
    type Reading = R;

    ghost readings = { λ e. take e.len e.memory.now };

    fn count(&self) -> usize {
        self.len
    }

    fn reading(&self, place: usize) -> Option<R> {
        if place >= self.len {
            return None;
        }
        Some(self.memory[place])
    }
}
