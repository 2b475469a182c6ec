// The size up to which a piece may be left undecided.
ghost use Rattle.std.specs.Prelude.{◌≡◌, ◌≤◌};
ghost use Rattle.domain.specs.Refusals.{Given};

use domain::refusal::Refusal;

#[derive(Clone, Copy)]
pub struct Grain {
    size: u32,
    ghost some: { 1 ≤ size },
    ghost most: { size ≤ 64 },
}

impl Grain {
    // Refused with 2 unless it is from 1 to 64.
    pub fn new(size: u32) -> Result<Grain, Refusal>
        ensures { Given result 2 ((1 ≤ size) × (size ≤ 64)) (λ g. g.size ≡ size) }
    {
        if size < 1 || size > 64 {
            return Err(Refusal::BadGrain);
        }
        Ok(Grain { size })
    }

    pub fn size(&self) -> u32
        ensures { result ≡ self.now.size }
    {
        self.size
    }
}
