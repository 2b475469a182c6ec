// How far a column or a row of the plane lies from a beacon's, with its sign.
ghost use Rattle.std.specs.Prelude.{◌≡◌, ◌+◌, ◌≤◌, ◌-ℤ◌, ◌*ℤ◌, min, unsigned_abs};
ghost use Rattle.leaves.specs.Cones.{offset as offset_of};
ghost use Rattle.leaves.specs.Rings.{square as square_of};

use plane::span::Span;
use scan::stretch::Stretch;

// No i16 is farther than 36,863 from a column or a row.
#[derive(Clone, Copy)]
pub(crate) struct Offset {
    places: i32,
    ghost most: { unsigned_abs places ≤ 36863 },
}

impl Offset {
    // An index beyond the plane counts as the last one.
    pub(crate) fn of(beacon: i16, index: u32) -> Offset
        ensures { result.places ≡ offset_of beacon (min index 4095) }
    {
        Offset {
            places: index.min(4095) as i32 - i32::from(beacon),
        }
    }

    // The offsets of both ends of a span.
    pub(crate) fn of_ends(beacon: i16, span: Span) -> (Offset, Offset)
        ensures { (result.0.places ≡ offset_of beacon span.low) × (result.1.places ≡ offset_of beacon span.high) }
    {
        let Stretch { low, high } = Stretch::from(span);
        (Offset::of(beacon, low), Offset::of(beacon, high))
    }

    pub(crate) fn square(self) -> Square
        ensures { result.value ≡ square_of (unsigned_abs self.places) }
    {
        let distance = self.places.unsigned_abs();
        Square {
            value: distance * distance,
        }
    }

    // The product with a number of a direction.
    pub(crate) fn times(self, number: i16) -> Product
        requires { unsigned_abs number ≤ 2048 }
        ensures { result.value ≡ number *ℤ self.places }
    {
        Product {
            value: i32::from(number) * self.places,
        }
    }
}

// The square of an offset.
#[derive(Clone, Copy)]
pub(crate) struct Square {
    pub(crate) value: u32,
    ghost most: { value ≤ 1358880769 },
}

impl Square {
    // Two squares add up within 32 bits.
    pub(crate) fn plus(self, other: Square) -> u32
        ensures { result ≡ self.value + other.value }
    {
        self.value + other.value
    }
}

// The product of an offset and a number of a direction.
#[derive(Clone, Copy)]
pub(crate) struct Product {
    pub(crate) value: i32,
    ghost most: { unsigned_abs value ≤ 75495424 },
}

impl Product {
    // Two products differ by what 32 bits hold.
    pub(crate) fn minus(self, other: Product) -> i32
        ensures { result ≡ self.value -ℤ other.value }
    {
        self.value - other.value
    }
}
