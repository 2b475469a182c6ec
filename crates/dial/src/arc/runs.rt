// Arcs in the order of another arc.
ghost use Rattle.std.specs.Prelude.{◌≡◌, ◌+◌, ◌<◌, ◌≤◌, true, IfSome, Some};
ghost use Rattle.dial.specs.Arcs.{along, begin, offset, part, span, within};

use crate::arc::Arc;
use scan::stretch::Stretch;

// How far past `from` the point `to` lies, going round.
pub(crate) fn offset_of(from: u16, to: u16) -> u16
    requires { (from < 3600) × (to < 3600) }
    ensures { result ≡ offset from to }
{
    (to + (3600 - from)) % 3600
}

impl Arc {
    // Where another arc begins, in the order of this one.
    pub(crate) fn begin_of(&self, other: &Arc) -> u16
        ensures { (result ≡ begin self.now other.now) × (result < 3600) }
    {
        offset_of(self.start, other.start)
    }

    // `len` of the arc's points, from its `from`-th on. There is at least one, so nothing is tested.
    pub(crate) fn run(&self, from: u16, len: u16) -> Arc
        requires { (0 < len) × (from + len ≤ self.now.len) }
        ensures { part self.now from len ≡ Some result }
    {
        Arc {
            start: (self.start + from) % 3600,
            len,
        }
    }

    // The same, where there may be none.
    pub(crate) fn strip(&self, from: u16, len: u16) -> Option<Arc>
        requires { from + len ≤ self.now.len }
        ensures { result ≡ part self.now from len }
    {
        (len != 0).then(|| self.run(from, len))
    }

    // A stretch of the arc's own order, if there is one, as an arc.
    pub(crate) fn along(&self, stretch: Option<Stretch>) -> Option<Arc>
        requires { IfSome stretch (λ s. (s.low ≤ s.high) × (s.high < self.now.len)) }
        ensures { result ≡ along self.now stretch }
    {
        let Stretch { low, high } = stretch?;
        Some(self.run(low as u16, (high + 1 - low) as u16))
    }

    // From where the first of two sub-pieces begins to where the last one ends.
    pub(crate) fn spanning(&self, one: &Arc, other: &Arc) -> Arc
        requires { (within one.now self.now ≡ true) × (within other.now self.now ≡ true) }
        ensures { span self.now (Some one.now) (Some other.now) ≡ Some result }
    {
        let first = self.begin_of(one);
        let second = self.begin_of(other);
        let low = first.min(second);
        let high = (first + one.len).max(second + other.len);
        self.run(low, high - low)
    }
}
