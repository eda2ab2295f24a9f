// The calls of one kind that failed.
ghost use Rattle.std.specs.Prelude.{◌≡◌, ◌↔◌, ◌<◌, nat_lt, is_some, Ok, Some, IfErr, IfOk, IsErr, IsSome, OnErr, OnOk};
ghost use Rattle.mdc_words.specs.Faults.{CountsFault};

use mdc_outside::Failed;
use mdc_words::count_fault;
use std::io;

/// How many calls of one kind have failed, and why the last of them did.
#[derive(Drop)]
pub struct Faults {
    count: u64,
    last: Option<io::Error>,
    ghost explained: { is_some last ≡ nat_lt 0 count },
}

impl Faults {
    /// No call has failed.
    pub fn new() -> Faults
        ensures { result.count ≡ 0 }
    {
        Faults {
            count: 0,
            last: None,
        }
    }

    /// Answers a call as `outcome` says. Where it failed, the fault is counted, and its cause is kept.
    pub fn counted<T: Drop>(&mut self, outcome: io::Result<T>) -> Result<T, Failed>
        ensures value { IfOk result (λ value. outcome ≡ Ok value) }
        ensures failed { OnErr result (IsErr outcome) }
        ensures cause { CountsFault (IsErr result) self.old.count self.new.count }
        ensures kept { IfErr outcome (λ error. self.new.last ≡ Some error) }
        ensures stays { OnOk outcome (self.new ≡ self.old) }
    {
        match outcome {
            Ok(value) => Ok(value),
            Err(error) => {
                count_fault(&mut self.count);
                self.last = Some(error);
                Err(Failed)
            }
        }
    }

    /// Why the last call that failed did.
    pub fn last(&self) -> Option<io::Error>
        ensures last { result ≡ self.now.last }
        ensures some { IsSome result ↔ (0 < self.now.count) }
    {
        self.last
    }
}
