// Spans cut in two, and what is left of a span without an inner one.
ghost use Rattle.std.specs.Prelude.{◌≡◌, ◌+◌, ◌-◌, ◌/◌, ◌<◌, ◌≤◌, true};
ghost use Rattle.plane.specs.Boxes.{lies_in};
ghost use Rattle.plane.specs.Spans.{HasMany, long, many_from, stretch as stretch_of};

use crate::span::Span;

impl Span {
    // The first half, rounded down, and the rest.
    pub(crate) fn halves(&self) -> (Span, Span)
        requires { 1 < long self.now }
        ensures low { HasMany self.now.low (long self.now / 2) result.0 }
        ensures high { HasMany (self.now.low + long self.now / 2) (long self.now - long self.now / 2) result.1 }
    {
        let middle = self.low + (self.high - self.low + 1) / 2;
        let low = Span {
            low: self.low,
            high: middle - 1,
        };
        let high = Span {
            low: middle,
            high: self.high,
        };
        (low, high)
    }

    // What of it lies before an inner span.
    pub(crate) fn before(&self, inner: &Span) -> Option<Span>
        requires { lies_in (stretch_of inner.now) (stretch_of self.now) ≡ true }
        ensures { result ≡ many_from self.now.low (inner.now.low - self.now.low) }
    {
        Span::many_from(self.low, inner.low - self.low)
    }

    // What of it lies after an inner span.
    pub(crate) fn after(&self, inner: &Span) -> Option<Span>
        requires { lies_in (stretch_of inner.now) (stretch_of self.now) ≡ true }
        ensures { result ≡ many_from (inner.now.high + 1) (self.now.high - inner.now.high) }
    {
        Span::many_from(inner.high + 1, self.high - inner.high)
    }

    // So many columns or rows from `first` on; nothing if there is none.
    fn many_from(first: u16, many: u16) -> Option<Span>
        requires { first + many ≤ 4096 }
        ensures { result ≡ many_from first many }
    {
        if many == 0 {
            return None;
        }
        Some(Span {
            low: first,
            high: first + (many - 1),
        })
    }
}
