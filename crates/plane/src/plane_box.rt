// A box of the plane: a span of columns and a span of rows.
use crate::span::Span;

mod gathers;
mod hulls;
pub mod made;
pub mod piece;
pub mod shown;
pub mod sides;

#[derive(Clone, Copy)]
pub struct PlaneBox {
    columns: Span,
    rows: Span,
}
