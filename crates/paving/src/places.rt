// Where a point of the start is: in a waiting piece, on the roll by its record's class, or in a piece that was taken.
ghost use Rattle.std.specs.Prelude.{◌≡◌};
ghost use Rattle.paving.specs.Numbers.{place_code};

// Each has the number by which it is answered.
#[derive(Clone, Copy, Debug, PartialEq, Eq)]
pub enum Place {
    Waiting = 0,
    Inside = 1,
    Outside = 2,
    Undecided = 3,
    Taken = 4,
}

impl Place {
    pub fn code(&self) -> u8
        ensures { result ≡ place_code self.now }
    {
        *self as u8
    }
}
