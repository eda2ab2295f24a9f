//! Words that the contracts of all layers share: a count of faults that rises, a first part of a list, what a run of calls
//! leaves of what a crash may leave, and steps that contracts count.
//!
//! It promises that what a run of calls leaves composes: for no call, for one call after another, and for a wider statement;
//! and that only `tick` raises a number of steps, by one. It stands on nothing.
#![tactic(auto)]

mod steps;

ghost use Rattle.std.specs.Prelude.{◌≤◌};
ghost use Rattle.mdc_words.specs.Faults.{Rose};

pub use steps::Steps;

/// Counts one fault more. A count at its last number stands still.
pub fn count_fault(faults: &mut u64)
    ensures rose { Rose faults.old faults.new }
    ensures later { faults.old ≤ faults.new }
{
    *faults = faults.saturating_add(1);
}

#[cfg(test)]
mod tests;
