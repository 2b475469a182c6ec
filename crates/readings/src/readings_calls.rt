// Readings one after another. What `add` shares with the push of a sheet's pile is two lines: one type for both would
// have to refuse where it is full, and each use to unwrap.
ghost use Rattle.std.specs.Prelude.{◌≡◌, ◌+◌, ◌<◌, [], ◌∷◌, ◌++◌, length};
ghost use Rattle.readings.specs.Requests.{entered};

use crate::readings::Readings;

#[tactic(auto, using(std::proofs::lemmas::List::take_more_set), unfolding(crate::specs::Requests::entered))]
impl<R: Copy> Readings<R> {
    pub(crate) fn of(first: R) -> Readings<R>
        ensures { (entered result ≡ first ∷ []) × (result.len ≡ 1) }
    {
        Readings {
            items: [first; 16],
            len: 1,
        }
    }

    pub(crate) fn add(&mut self, reading: R)
        requires { self.old.len < 16 }
        ensures { (entered self.new ≡ entered self.old ++ reading ∷ []) × (self.new.len ≡ self.old.len + 1) }
    {
        self.items[self.len] = reading;
        self.len += 1;
    }

    // The readings, in the order of the file.
    pub fn all(&self) -> &[R]
        ensures { (result.now ≡ entered self.now) × (length result.now ≡ self.now.len) }
    {
        &self.items[..self.len]
    }
}
