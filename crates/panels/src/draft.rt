// A draft takes readings into memory that the caller lends, until it is sealed.
ghost use Rattle.std.specs.Prelude.{◌≡◌, ◌≤◌, length};
ghost use Rattle.panels.specs.Drafts.{Entered};

use crate::reading_list::ReadingList;
use domain::refusal::Refusal;

// The readings are the front of the lent memory: the library has no heap.
#[derive(Drop)]
pub struct Draft<'a, R> {
    memory: &'a mut [R],
    len: usize,
    ghost few: { len ≤ 16 },
    ghost fits: { len ≤ length memory.now },
}

impl<'a, R: Copy> Draft<'a, R> {
    // An empty draft over lent memory, which stays as it is.
    pub fn new(memory: &'a mut [R]) -> Draft<'a, R>
        ensures empty { result.len ≡ 0 }
        ensures same { (result.memory.now ≡ memory.old) × (result.memory.ghost_name ≡ memory.entry.ghost_name) }
    {
        Draft { memory, len: 0 }
    }

    // How many readings were entered.
    pub fn count(&self) -> usize
        ensures { result ≡ self.now.len }
    {
        self.len
    }

    // The lent memory, of which the readings entered are the front.
    pub fn memory(&self) -> &[R]
        ensures { result.now ≡ self.now.memory.now }
    {
        &self.memory[..]
    }

    // Enters a reading after the others. Refused with 6 where there are sixteen, else with 7 where the memory is full.
    pub fn enter(&mut self, reading: R) -> Result<(), Refusal>
        ensures value { Entered self.old.memory.now self.old.len reading result self.new.memory.now self.new.len }
        ensures same { self.new.memory.ghost_name ≡ self.old.memory.ghost_name }
    {
        if self.len == 16 {
            return Err(Refusal::DraftFull);
        }
        if self.len == self.memory.len() {
            return Err(Refusal::MemoryFull);
        }
        self.memory[self.len] = reading;
        self.len += 1;
        Ok(())
    }

    // Moves the draft into the list of its readings. The memory is as it was, and no reading can be added.
    pub fn seal(self) -> ReadingList<'a, R>
        ensures readings { result.len ≡ self.entry.len }
        ensures same { result.memory.now ≡ self.entry.memory.now }
    {
        let Draft { memory, len } = self;
        ReadingList {
            memory: &memory[..],
            len,
        }
    }
}
