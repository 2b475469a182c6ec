// How a span is made, and what it is made of.
ghost use Rattle.std.specs.Prelude.{◌≡◌};
ghost use Rattle.plane.specs.Spans.{HasEnds, span_of, spanned, stretch as stretch_of};

use crate::span::Span;
use scan::stretch::Stretch;

impl Span {
    // The span of a stretch; nothing unless low ≤ high ≤ 4095.
    pub fn from_stretch(stretch: Stretch) -> Option<Span>
        ensures { result ≡ spanned stretch }
    {
        if stretch.low > stretch.high || stretch.high > 4095 {
            return None;
        }
        Some(Span {
            low: stretch.low as u16,
            high: stretch.high as u16,
        })
    }

    // The span from `low` to `high`; nothing unless low ≤ high ≤ 4095.
    pub(crate) fn of(low: u16, high: u16) -> Option<Span>
        ensures { result ≡ span_of low high }
    {
        Span::from_stretch(Stretch {
            low: u32::from(low),
            high: u32::from(high),
        })
    }

    // All columns, or all rows.
    pub(crate) fn whole() -> Span
        ensures { HasEnds 0 4095 result }
    {
        Span { low: 0, high: 4095 }
    }

    // The first one.
    pub(crate) fn low(&self) -> u16
        ensures { result ≡ self.now.low }
    {
        self.low
    }

    // The last one.
    pub(crate) fn high(&self) -> u16
        ensures { result ≡ self.now.high }
    {
        self.high
    }
}

impl From<Span> for Stretch {
    ghost from_gives = { λ s r. r ≡ stretch_of s };

    fn from(span: Span) -> Stretch {
        Stretch {
            low: u32::from(span.low),
            high: u32::from(span.high),
        }
    }
}
