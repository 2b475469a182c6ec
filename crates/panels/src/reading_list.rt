// Readings of one kind, as a panel: what a sealed draft is.
ghost use Rattle.std.specs.Prelude.{◌≡◌, ◌<◌, ◌≤◌, map, length, take, Some};
ghost use Rattle.std.specs.List.{slice_get};
ghost use Rattle.domain.specs.Refusals.{Given};
ghost use Rattle.contractor.specs.Means.{means};
ghost use Rattle.panels.specs.Readings.{all_readings, few_readings};

use crate::entries::Entries;
use crate::panel::Panel;
use contractor::contractor::Contractor;
use domain::refusal::Refusal;

pub mod order;

// The readings are the front of memory that the caller lends: the library has no heap.
#[derive(Drop)]
pub struct ReadingList<'a, R> {
    pub(crate) memory: &'a [R],
    pub(crate) len: usize,
    ghost few: { len ≤ 16 },
    ghost fits: { len ≤ length memory.now },
}

impl<'a, R> ReadingList<'a, R> {
    // The readings, in the order in which they were entered.
    pub fn readings(&self) -> &[R]
        ensures { result.now ≡ take self.now.len self.now.memory.now }
    {
        &self.memory[..self.len]
    }

    // All of the lent memory, as it was when the draft was sealed.
    pub fn memory(&self) -> &[R]
        ensures { result.now ≡ self.now.memory.now }
    {
        &self.memory[..]
    }

    // The same readings, place by place, for whoever need not know of panels.
    pub fn entries(&self) -> Entries<'a, R>
        ensures { (result.memory.now ≡ self.now.memory.now) × (result.len ≡ self.now.len) }
    {
        Entries {
            memory: self.memory,
            len: self.len,
        }
    }

    // The reading at a place, from 0 on.
    fn reading(&self, place: usize) -> Result<&R, Refusal>
        ensures { Given result 9 (place < self.now.len) (λ r. slice_get (take self.now.len self.now.memory.now) place ≡ Some r.now) }
    {
        self.readings().get(place).ok_or(Refusal::NoSuchMember)
    }
}

// The members are the contractors that the readings are, in order.
impl<'a, R: Contractor> Panel for ReadingList<'a, R> {
    type Piece = R::Piece;

    ghost members = { λ l. map (means R.Contractor) (take l.len l.memory.now) };

    ghost sound = { λ l. all_readings _ _ R.Contractor.sound (take l.len l.memory.now) };

    ghost few = { λ l. few_readings _ l.len l.memory.now l.few };

    fn count(&self) -> usize {
        self.len
    }

    fn keep(&self, member: usize, piece: &R::Piece) -> Result<Option<R::Piece>, Refusal> {
        Ok(self.reading(member)?.keep(piece))
    }

    fn shed(&self, member: usize, piece: &R::Piece) -> Result<Option<R::Piece>, Refusal> {
        Ok(self.reading(member)?.shed(piece))
    }
}
