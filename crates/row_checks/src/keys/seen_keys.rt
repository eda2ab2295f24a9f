// Keys of rows that were looked at.
ghost use Rattle.std.specs.Prelude.{◌≡◌, ◌++◌, ◌∷◌, [], List, not, IfOk};
ghost use Rattle.std.specs.List.{list_any};
ghost use Rattle.mdc_values.specs.declared.value.Value.{Value};
ghost use Rattle.row_groups.specs.Lines.{are_grouped};
ghost use Rattle.row_checks.specs.Seen.{HasSeen};

use mdc_values::{Memory, Value};
use row_groups::append_key;
use std::alloc::Global;
use std::collections::BTreeSet;

/// The keys of rows that were looked at, in an ordered set: a look takes a step for each doubling of them, whatever the values are.
#[derive(Drop)]
pub struct SeenKeys {
    alloc: Global,
    keys: BTreeSet<Vec<u8>>,
}

impl SeenKeys {
    /// No key. It takes no memory.
    pub fn new(alloc: Global) -> SeenKeys
        ensures { (columns : List _) → HasSeen columns [] result.keys }
    {
        SeenKeys {
            alloc,
            keys: BTreeSet::new(alloc),
        }
    }

    /// Puts the key of a row in these columns among them, and says whether it wasn't there. After `Memory` they are done with.
    pub fn add(&mut self, columns: &[u8], row: &[Value]) -> Result<bool, Memory>
        ensures new { IfOk result (λ new. (rows : List (List Value)) → HasSeen columns.now rows self.old.keys
            → new ≡ not (list_any (are_grouped columns.now row.now) rows)) }
        ensures seen { IfOk result (λ _. (rows : List (List Value)) → HasSeen columns.now rows self.old.keys
            → HasSeen columns.now (rows ++ row.now ∷ []) self.new.keys) }
    {
        let mut key = Vec::new(self.alloc);
        append_key(columns, row, &mut key)?;
        Ok(self.keys.insert(key)?)
    }
}
