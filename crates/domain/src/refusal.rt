// Every reason for which the library refuses a call. Only its number is answered.
ghost use Rattle.std.specs.Prelude.{◌≡◌};
ghost use Rattle.domain.specs.Refusals.{code};

#[derive(Clone, Copy, PartialEq, Eq, Debug)]
pub enum Refusal {
    NotAPiece = 1,
    BadGrain = 2,
    OutOfRange = 3,
    BadRadii = 4,
    BadCone = 5,
    DraftFull = 6,
    MemoryFull = 7,
    TooManyLiars = 8,
    NoSuchMember = 9,
    PanelTooLarge = 10,
    NothingWaiting = 11,
    RollFull = 12,
    RollEmpty = 13,
    NotAPoint = 14,
    KeyNotDue = 15,
    Malformed = 16,
    CountDiffers = 17,
    FileTooLarge = 18,
}

impl Refusal {
    // The number by which a refusal is answered.
    pub fn code(&self) -> u8
        ensures { result ≡ code self.now }
    {
        *self as u8
    }
}
