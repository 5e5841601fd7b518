//! Counting a device's faults.

ghost use Rattle.std.specs.Prelude.{◌≡◌, MatchResult, Ok, Err};
ghost use Rattle.cell_key.specs.Faults.{HasReason};

use cell_key::Refusal;

/// The same answer. A device's fault is counted, up to 2^64 - 1.
pub(crate) fn count<T>(faults: &mut u64, answer: Result<T, Refusal>) -> Result<T, Refusal>
    ensures same { result ≡ answer }
    ensures reason { HasReason faults.old faults.new result }
{
    match answer {
        Err(Refusal::Device) => {
            *faults = faults.saturating_add(1);
            Err(Refusal::Device)
        }
        other => other,
    }
}

/// The answer of rows in memory, whose only refusal is for want of it.
pub(crate) fn in_memory<T>(answer: Result<T, Refusal>) -> Result<T, Refusal>
    ensures { MatchResult answer (λ value. result ≡ Ok value) (λ _. result ≡ Err Refusal.NoMemory) }
{
    match answer {
        Ok(value) => Ok(value),
        Err(_) => Err(Refusal::NoMemory),
    }
}
