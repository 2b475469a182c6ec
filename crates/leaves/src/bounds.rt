// Numbers within bounds.
ghost use Rattle.std.specs.Prelude.{◌≡◌, ◌≤◌, pos, negsuc, ◌≤ℤ◌};
ghost use Rattle.domain.specs.Refusals.{Given};

use domain::refusal::Refusal;

// A number in 16 bits; refused with 3 if it is not from -most - 1 to most.
pub(crate) fn within(number: i32, most: u16) -> Result<i16, Refusal>
    requires { most ≤ 32767 }
    ensures { Given result 3 ((negsuc most ≤ℤ number) × (number ≤ℤ pos most)) (λ n. n ≡ number) }
{
    let most = i32::from(most);
    if number < -most - 1 || most < number {
        return Err(Refusal::OutOfRange);
    }
    Ok(number as i16)
}
