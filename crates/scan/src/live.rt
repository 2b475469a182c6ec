// The first and the last index of a range at which a test holds.
ghost use Rattle.std.specs.Prelude.{◌≡◌, ℕ, ◌-◌, Bool};
ghost use Rattle.scan.specs.Live.{First, Last, run};

use crate::stretch::Stretch;

// A test of indices. It is a trait, and no closure: a public function that calls a closure has a `requires`, and here none has one.
pub trait Live {
    ghost live: { Self → ℕ → Bool };

    fn is_live(&self, index: u32) -> bool
        ensures { result ≡ live self.now index };
}

// The first live index from `from` up to, and not with, `to`. Two numbers, and no range: `live_run` takes one of them
// from what it found. A `for`, and no `find`: the compiler makes of it a loop that looks at sixteen places of the dial at
// a time, and of `find` none.
pub fn first_live<L: Live>(test: &L, from: u32, to: u32) -> Option<u32>
    ensures { First (L.Live.live test.now) from to result }
{
    for i in from..to {
        if test.is_live(i) {
            return Some(i);
        }
    }
    None
}

// The last live index from `from` up to, and not with, `to`.
pub fn last_live<L: Live>(test: &L, from: u32, to: u32) -> Option<u32>
    ensures { Last (L.Live.live test.now) from to result }
{
    (from..to).rev().find(|&index| test.is_live(index))
}

// From the first to the last live index, found from both ends inward.
pub fn live_run<L: Live>(test: &L, from: u32, to: u32) -> Option<Stretch>
    ensures { result ≡ run (L.Live.live test.now) from (to - from) }
{
    let low = first_live(test, from, to)?;
    let high = last_live(test, low, to)?;
    Some(Stretch { low, high })
}
