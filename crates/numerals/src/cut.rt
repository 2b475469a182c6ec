// Cutting bytes in two.
ghost use Rattle.std.specs.Option.{MatchOption};
ghost use Rattle.numerals.specs.Lists.{Cut, Without};

// What stands before the first byte `at`, and what stands after it; nothing where there is none.
pub fn cut(bytes: &[u8], at: u8) -> Option<(&[u8], &[u8])>
    ensures { MatchOption result (Without at bytes.now) (λ p. Cut at bytes.now p.0.now p.1.now) }
{
    let i = bytes.iter().position(|byte| *byte == at)?;
    Some((&bytes[..i], &bytes[i + 1..]))
}
