// A set of entries of an index.
ghost use Rattle.std.specs.Prelude.{◌≡◌, ◌↔◌, ◌⊎◌, [], Contains, IsTrue, IfErr, OnOk, ℕ, List};
ghost use Rattle.file_check.specs.TableIndexes.{noted_entries};

use std::alloc::Global;
use std::collections::BTreeSet;
use store_api::StoreFault;

/// Entries that were noted, to be asked whether one is among them.
#[derive(Drop)]
pub(crate) struct EntrySet {
    entries: BTreeSet<Vec<u8>>,
}

impl EntrySet {
    /// No entry. It takes no memory.
    pub(crate) fn new(alloc: Global) -> EntrySet
        ensures { noted_entries result ≡ [] }
    {
        EntrySet {
            entries: BTreeSet::new(alloc),
        }
    }

    /// Whether an entry is among them.
    pub(crate) fn has(&self, entry: &[u8]) -> bool
        ensures { IsTrue result ↔ Contains (noted_entries self.now) entry.now }
    {
        self.entries.contains(entry)
    }

    /// Puts an entry among them.
    pub(crate) fn add(&mut self, entry: Vec<u8>) -> Result<(), StoreFault>
        ensures all { OnOk result ((other : List ℕ) → Contains (noted_entries self.new) other ↔ (other ≡ entry.items) ⊎ Contains (noted_entries self.old) other) }
        ensures memory { IfErr result (λ fault. fault ≡ StoreFault.Memory) }
    {
        self.entries.insert(entry)?;
        Ok(())
    }
}
