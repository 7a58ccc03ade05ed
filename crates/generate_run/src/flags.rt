//! Flags that are set, counted.

ghost use Rattle.std.specs.Prelude.{◌≡◌};
ghost use Rattle.generate_run.specs.Lines.{set_in};

/// How many of the flags are set.
pub fn count_set(flags: &[bool]) -> u64
    ensures { result ≡ set_in flags.now }
{
    flags.iter().filter(|flag| **flag).count() as u64
}
