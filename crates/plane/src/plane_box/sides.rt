// The two sides of a box.
ghost use Rattle.std.specs.Prelude.{◌≡◌, nat_le};
ghost use Rattle.plane.specs.Boxes.{columns as columns_of, rows as rows_of, wide as wide_of, tall as tall_of};
ghost use Rattle.plane.specs.Gathering.{columns_numbered, rows_numbered};

use crate::plane_box::PlaneBox;
use crate::span::Span;
use scan::depth::Side;
use scan::stretch::Stretch;

impl PlaneBox {
    pub fn columns(&self) -> Stretch
        ensures { result ≡ columns_of self.now }
    {
        Stretch {
            low: u32::from(self.x0()),
            high: u32::from(self.x1()),
        }
    }

    pub fn rows(&self) -> Stretch
        ensures { result ≡ rows_of self.now }
    {
        Stretch {
            low: u32::from(self.y0()),
            high: u32::from(self.y1()),
        }
    }

    // Its columns and its rows, as the spans that it is made of.
    pub fn spans(&self) -> (Span, Span)
        ensures { (result.0 ≡ self.now.columns) × (result.1 ≡ self.now.rows) }
    {
        (self.columns, self.rows)
    }

    // Whether there are at least as many columns as rows, so that they are what is cut.
    pub(crate) fn is_cut_by_columns(&self) -> bool
        ensures { result ≡ nat_le (tall_of self.now) (wide_of self.now) }
    {
        let PlaneBox { columns, rows } = self;
        rows.len() <= columns.len()
    }
}

// The columns of boxes, each known by its number.
pub struct Columns;

// The rows of boxes, each known by its number.
pub struct Rows;

impl Side for Columns {
    ghost extent = { λ _ n. columns_numbered n };

    fn stretch(&self, member: u64) -> Stretch {
        Stretch {
            low: (member >> 36) as u32,
            high: ((member >> 12) % 4096) as u32,
        }
    }
}

impl Side for Rows {
    ghost extent = { λ _ n. rows_numbered n };

    fn stretch(&self, member: u64) -> Stretch {
        Stretch {
            low: ((member >> 24) % 4096) as u32,
            high: (member % 4096) as u32,
        }
    }
}
