// The plane as a domain.
ghost use Rattle.std.specs.Prelude.{◌≡◌, ◌<◌, IfOk};
ghost use Rattle.domain.specs.Maps.{Fits, Members, Gathered, Smallest};
ghost use Rattle.domain.specs.Refusals.{Given};
ghost use Rattle.plane.specs.Boxes.{plane, holds as holds_of, span as span_of};
ghost use Rattle.plane.specs.Promises.{Exact, HeldByEither};
ghost use Rattle.plane.specs.Gathering.{CrossingOf};
ghost use Rattle.plane.specs.Lawful;

use crate::plane_box::PlaneBox;
use crate::plane_box::gathers::Numbered;
use domain::domain::Domain;
use domain::refusal::Refusal;
use domain::strip_slots::Strips;
use scan::powers::log_up;

impl Domain for PlaneBox {
    ghost maps = { plane };

    ghost lawful = { Lawful.lawful };

    fn count(&self) -> u64 {
        u64::from(self.columns.len()) * u64::from(self.rows.len())
    }

    fn size(&self) -> u32 {
        self.columns.len().max(self.rows.len())
    }

    fn number(&self) -> u64 {
        (u64::from(self.x0()) << 36)
            + (u64::from(self.y0()) << 24)
            + (u64::from(self.x1()) << 12)
            + u64::from(self.y1())
    }

    fn from_number(number: u64) -> Result<PlaneBox, Refusal> {
        if number >> 48 > 0 {
            return Err(Refusal::NotAPiece);
        }
        PlaneBox::new(
            (number >> 36) as u16,
            ((number >> 24) % 4096) as u16,
            ((number >> 12) % 4096) as u16,
            (number % 4096) as u16,
        )
    }

    fn holds(&self, point: u32) -> bool
        ensures value { result ≡ holds_of self.now point }
        ensures exact { Exact self.now }
    {
        self.columns.holds(point % 4096) && self.rows.holds(point / 4096)
    }

    fn is_within(&self, outer: &PlaneBox) -> bool {
        self.columns.is_within(&outer.columns) && self.rows.is_within(&outer.rows)
    }

    fn halves(&self) -> Result<(PlaneBox, PlaneBox), Refusal> {
        if self.size() == 1 {
            return Err(Refusal::NotAPiece);
        }
        if self.is_cut_by_columns() {
            let (low, high) = self.columns.halves();
            return Ok((
                PlaneBox {
                    columns: low,
                    ..*self
                },
                PlaneBox {
                    columns: high,
                    ..*self
                },
            ));
        }
        let (low, high) = self.rows.halves();
        Ok((
            PlaneBox { rows: low, ..*self },
            PlaneBox {
                rows: high,
                ..*self
            },
        ))
    }

    fn strips(&self, inner: &PlaneBox) -> Result<Strips<PlaneBox>, Refusal> {
        if !inner.is_within(self) {
            return Err(Refusal::NotAPiece);
        }
        Ok(Strips {
            first: PlaneBox::crossing(self.columns.before(&inner.columns), Some(self.rows)),
            second: PlaneBox::crossing(self.columns.after(&inner.columns), Some(self.rows)),
            third: PlaneBox::crossing(Some(inner.columns), self.rows.before(&inner.rows)),
            fourth: PlaneBox::crossing(Some(inner.columns), self.rows.after(&inner.rows)),
        })
    }

    fn span(
        &self,
        one: Option<PlaneBox>,
        other: Option<PlaneBox>,
    ) -> Result<Option<PlaneBox>, Refusal>
        ensures value { Given result 1 (Fits plane self.now one × Fits plane self.now other) (λ s. s ≡ span_of self.now one other) }
        ensures smallest { Given result 1 (Fits plane self.now one × Fits plane self.now other) (λ s. Smallest plane self.now (HeldByEither one other) s) }
    {
        if !self.takes(&one) || !self.takes(&other) {
            return Err(Refusal::NotAPiece);
        }
        Ok(PlaneBox::enclosing(one, other))
    }

    fn gather(&self, members: &[u64], depth: usize) -> Result<Option<PlaneBox>, Refusal>
        ensures value { Given result 1 ((0 < depth) × Members plane self.now members.now) (λ s. Gathered plane self.now members.now depth s) }
        ensures runs { IfOk result (λ s. CrossingOf members.now depth s) }
    {
        if depth == 0 || !self.has_members(members) {
            return Err(Refusal::NotAPiece);
        }
        Ok(PlaneBox::crossing(
            Numbered::COLUMNS.deep_span(members, depth),
            Numbered::ROWS.deep_span(members, depth),
        ))
    }

    fn height(&self) -> u32 {
        let across = log_up(self.columns.len());
        let up = log_up(self.rows.len());
        across + up
    }
}
