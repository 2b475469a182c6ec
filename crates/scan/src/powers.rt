// Powers of two against a side's length.
ghost use Rattle.std.specs.Prelude.{◌≡◌};
ghost use Rattle.scan.specs.Powers.{log_up};

// The least e with 2^e at least `side`.
pub fn log_up(side: u32) -> u32
    ensures { result ≡ log_up side }
{
    (0..32).find(|&e| side <= 1 << e).unwrap_or(32)
}
