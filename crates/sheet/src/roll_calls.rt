// What is done with the roll.
ghost use Rattle.std.specs.Prelude.{◌≡◌, ◌<◌, [], ◌∷◌, ◌++◌, length, MatchOption, slice_index_or};
ghost use Rattle.sheet.specs.Rolls.{rolled, place};

use crate::roll::Roll;
use paving::classes::Class;
use paving::records::Record;

// The place of the ring that is so many after another.
pub(crate) fn place_after(first: usize, many: usize) -> usize
    requires { (first < 1024) × (many < 1024) }
    ensures { (result ≡ place first many) × (result < 1024) }
{
    (first + many) % 1024
}

impl<P: Copy> Roll<P> {
    // The places are filled with any piece.
    pub(crate) fn empty(piece: P) -> Roll<P>
        ensures { rolled result ≡ [] }
    {
        let blank = Record {
            label: 0,
            class: Class::Undecided,
            piece,
        };
        Roll {
            items: [blank; 1024],
            first: 0,
            len: 0,
        }
    }

    // The records, the oldest first: those up to the end of the ring, and those that went round.
    pub(crate) fn as_slices(&self) -> (&[Record<P>], &[Record<P>])
        ensures { result.0.now ++ result.1.now ≡ rolled self.now }
    {
        let ring = &self.items[..];
        let end = self.first + self.len;
        if end <= 1024 {
            return (&ring[self.first..end], &[]);
        }
        (&ring[self.first..], &ring[..end - 1024])
    }

    // One record more, the newest.
    pub(crate) fn note(&mut self, record: Record<P>)
        requires { self.old.len < 1024 }
        ensures { rolled self.new ≡ rolled self.old ++ «record» ∷ [] }
    {
        let at = place_after(self.first, self.len);
        self.items[at] = record;
        self.len += 1;
    }

    // The oldest record leaves the roll.
    pub(crate) fn take(&mut self) -> Option<Record<P>>
        ensures { MatchOption result ((rolled self.old ≡ []) × (self.new ≡ self.old)) (λ x. rolled self.old ≡ x ∷ rolled self.new) }
    {
        if self.len == 0 {
            return None;
        }
        let oldest = self.items[self.first];
        self.first = place_after(self.first, 1);
        self.len -= 1;
        Some(oldest)
    }
}
