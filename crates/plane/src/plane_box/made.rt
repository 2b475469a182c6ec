// How a box is made, and what it is made of.
ghost use Rattle.std.specs.Prelude.{◌≡◌, Some, None, MatchResult};
ghost use Rattle.domain.specs.Refusals.{Given, code};
ghost use Rattle.plane.specs.Boxes.{AreBox, box_of, crossing, HasNumbers};
ghost use Rattle.plane.specs.Promises.{Worked};

use crate::plane_box::PlaneBox;
use crate::span::Span;
use domain::refusal::Refusal;

impl PlaneBox {
    // The box of columns x0 to x1 and rows y0 to y1; refused with 1 unless x0 ≤ x1 ≤ 4095 and y0 ≤ y1 ≤ 4095.
    #[tactic(auto, using(crate::specs::Made::box_none))]
    pub fn new(x0: u16, y0: u16, x1: u16, y1: u16) -> Result<PlaneBox, Refusal>
        ensures value { Given result 1 (AreBox x0 y0 x1 y1) (λ b. HasNumbers x0 y0 x1 y1 b) }
        ensures made { MatchResult result (λ b. box_of x0 y0 x1 y1 ≡ Some b) (λ e. (box_of x0 y0 x1 y1 ≡ None) × (code e ≡ 1)) }
    {
        PlaneBox::crossing(Span::of(x0, x1), Span::of(y0, y1)).ok_or(Refusal::NotAPiece)
    }

    // The box of a span of columns and a span of rows; nothing if either is nothing.
    pub fn crossing(columns: Option<Span>, rows: Option<Span>) -> Option<PlaneBox>
        ensures { result ≡ crossing columns rows }
    {
        Some(PlaneBox {
            columns: columns?,
            rows: rows?,
        })
    }

    // The whole plane, the largest box. Its second clause is a table of worked values.
    pub fn whole() -> PlaneBox
        ensures value { HasNumbers 0 0 4095 4095 result }
        ensures worked { Worked }
    {
        PlaneBox {
            columns: Span::whole(),
            rows: Span::whole(),
        }
    }

    // The first column.
    pub fn x0(&self) -> u16
        ensures { result ≡ self.now.columns.low }
    {
        self.columns.low()
    }

    // The first row.
    pub fn y0(&self) -> u16
        ensures { result ≡ self.now.rows.low }
    {
        self.rows.low()
    }

    // The last column.
    pub fn x1(&self) -> u16
        ensures { result ≡ self.now.columns.high }
    {
        self.columns.high()
    }

    // The last row.
    pub fn y1(&self) -> u16
        ensures { result ≡ self.now.rows.high }
    {
        self.rows.high()
    }
}
