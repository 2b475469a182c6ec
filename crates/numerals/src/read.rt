// Reading a decimal: no leading zero, no plus, no -0, and 32 signed bits at the most.
ghost use Rattle.std.specs.Prelude.{◌≡◌, ℕ, suc, ◌^◌, ◌<◌, ◌≤◌, ℤ, pos, negsuc, decimal, Decides, MatchOption, FitsSigned, ◌≢◌};
ghost use Rattle.std.specs.Fmt.{signed_decimal};
ghost use Rattle.std.specs.Int.{w32};
ghost use Rattle.numerals.specs.Shape.{Shaped};

use std::str;

// From one to ten bytes, and no leading zero but in 0 itself.
fn may_be_digits(text: &[u8]) -> bool
    ensures { Decides result (Shaped text.now) }
{
    match text.len() {
        0 => false,
        1 => true,
        2..=10 => text[0] != b'0',
        _ => false,
    }
}

// The number of at most ten digits that a text writes. The library's `parse` would take a plus.
fn read_digits(text: &[u8]) -> Option<u64>
    ensures { MatchOption result ((n : ℕ) → n < 10 ^ 10 → text.now ≢ decimal n) (λ n. (text.now ≡ decimal n) × (n < 10 ^ 10)) }
{
    if !may_be_digits(text) || text[0] == b'+' {
        return None;
    }
    str::from_utf8(text).ok()?.parse().ok()
}

// The number that a text writes, if it writes one in this form: no other text writes it, and it writes no other.
pub fn read_number(text: &[u8]) -> Option<i32>
    ensures { MatchOption result ((z : ℤ) → FitsSigned w32 z → text.now ≢ signed_decimal z) (λ z. text.now ≡ signed_decimal z) }
{
    match text {
        [b'-', ..] => read_negative(&text[1..]),
        _ => read_positive(text),
    }
}

fn read_positive(text: &[u8]) -> Option<i32>
    ensures { MatchOption result ((n : ℕ) → n < 2 ^ 31 → text.now ≢ decimal n) (λ z. (n : ℕ) × (z ≡ pos n) × (text.now ≡ decimal n)) }
{
    let n = read_digits(text)?;
    if !is_positive(n) {
        return None;
    }
    Some(n as i32)
}

fn read_negative(digits: &[u8]) -> Option<i32>
    ensures { MatchOption result ((n : ℕ) → n < 2 ^ 31 → digits.now ≢ decimal (suc n)) (λ z. (n : ℕ) × (z ≡ negsuc n) × (digits.now ≡ decimal (suc n))) }
{
    let n = read_digits(digits)?;
    if !is_negative(n) {
        return None;
    }
    Some((-(n as i64)) as i32)
}

// Whether n is a number of 32 signed bits.
fn is_positive(n: u64) -> bool
    ensures { Decides result (n < 2 ^ 31) }
{
    n <= 2147483647
}

// Whether minus n is one, and not 0.
fn is_negative(n: u64) -> bool
    ensures { Decides result ((0 < n) × (n ≤ 2 ^ 31)) }
{
    0 < n && n <= 2147483648
}
