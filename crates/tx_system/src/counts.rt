// Counts of what went wrong.
ghost use Rattle.std.specs.Prelude.{◌≡◌};
ghost use Rattle.tx_outside.specs.Counts.{NeverFalls, Rose, raised};

/// The count, raised by one up to its last value.
pub(crate) fn raised(count: u64) -> u64
    ensures raised { result ≡ raised count }
    ensures rose { Rose count result }
    ensures kept { NeverFalls count result }
{
    count.saturating_add(1)
}
