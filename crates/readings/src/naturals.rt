// Numbers that are not negative.
ghost use Rattle.std.specs.Prelude.{◌^◌, ◌<◌};
ghost use Rattle.readings.specs.Lines.{Numbers, numbered};
ghost use Rattle.readings.specs.Sorts.{Naturals};

use domain::refusal::Refusal;
use numerals::values::numbers;

// The N numbers of a value, as numbers of 16 bits. Refused with 16 for what is not N numbers, with 1 where one of them
// is not from 0 to 65535. The bound on N is that of an array's size in memory.
pub(crate) fn naturals<const N: usize>(value: &[u8]) -> Result<[u16; N], Refusal>
    requires { N < 2 ^ 32 }
    ensures { Numbers N Naturals value.now (numbered result) }
{
    numbers::<N>(value).ok_or(Refusal::Malformed)?.try_map(|number| u16::try_from(number).map_err(
        |_| Refusal::NotAPiece,
    ))
}
