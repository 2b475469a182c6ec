// Columns judged by the rows of a box, then rows judged by the columns just kept.
ghost use Rattle.std.specs.Prelude.{◌≡◌, option_and_then};
ghost use Rattle.scan.specs.Live.{run};
ghost use Rattle.plane.specs.Spans.{long, spanned};
ghost use Rattle.leaves.specs.Judged.{Test, Finds, judged as judged_by};

use plane::plane_box::PlaneBox;
use plane::span::Span;
use scan::live::{Live, live_run};
use scan::stretch::Stretch;

// From the first to the last column of a piece that is live by its rows, and from the first to the last row that is
// live by these columns. A search takes a reading, a span of columns and one of rows; turned over, a reading's rows are
// columns.
pub(crate) fn judged<R: Copy, F: Fn(R, Span, Span) -> Option<Span>>(
    reading: R,
    turned: R,
    piece: &PlaneBox,
    search: F,
) -> Option<PlaneBox>
    requires { F.IsAlwaysCallable search }
    ensures { (f : R → Test) → Finds (F.post search) f → result ≡ judged_by (f reading) (f turned) piece.now }
{
    let (columns, rows) = piece.spans();
    let across = search(reading, columns, rows)?;
    let up = search(turned, rows, across)?;
    PlaneBox::crossing(Some(across), Some(up))
}

// From the first to the last index of a span that passes a test.
pub(crate) fn live_span<L: Live>(test: &L, span: Span) -> Option<Span>
    ensures { result ≡ option_and_then spanned (run (L.Live.live test.now) span.low (long span)) }
{
    let Stretch { low, high } = Stretch::from(span);
    Span::from_stretch(live_run(test, low, high + 1)?)
}
