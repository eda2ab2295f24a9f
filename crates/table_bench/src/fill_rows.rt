// Rows are put, changed and deleted.
ghost use Rattle.std.specs.Prelude.{◌≡◌, false, None, OnOk};

use crate::filled::Filled;
use crate::plan::Amount;
use crate::stop::Stop;
use checked_table::Account;
use mdc_values::Rid;
use std::alloc::Global;
use store_api::{Shape, Store};

/// Makes a table, puts so many rows, changes every fifth and deletes every seventh. Answers how many of its blocks are in each
/// state.
pub fn fill_store<S: Store>(
    alloc: Global,
    shape: Shape,
    store: &mut S,
    amount: Amount,
) -> Result<Account, Stop>
    requires going { (S.state store.old).ended ≡ false }
    requires unmarked { (S.state store.old).marked ≡ None }
{
    let mut table = Filled::make(alloc, amount.seed, shape, store)?;
    let mut rids = insert_rows(alloc, &mut table, store, amount.rows)?;
    change_rows(&mut table, store, &mut rids)?;
    delete_rows(&mut table, store, &rids)?;
    table.commit(store)?;
    table.account(store)
}

// Puts so many rows, and answers where each lies.
fn insert_rows<S: Store>(
    alloc: Global,
    table: &mut Filled,
    store: &mut S,
    rows: u32,
) -> Result<Vec<Rid>, Stop>
    requires going { (S.state store.old).ended ≡ false }
    requires unmarked { (S.state store.old).marked ≡ None }
    ensures going { OnOk result ((S.state store.new).ended ≡ false) }
    ensures unmarked { OnOk result ((S.state store.new).marked ≡ None) }
{
    let mut rids = Vec::new(alloc);
    for _ in 0..rows {
        rids.push(table.insert(store)?)?;
        table.count_change(store)?;
    }
    Ok(rids)
}

// Changes every fifth row, each at its place.
fn change_rows<S: Store>(table: &mut Filled, store: &mut S, rids: &mut [Rid]) -> Result<(), Stop>
    requires going { (S.state store.old).ended ≡ false }
    requires unmarked { (S.state store.old).marked ≡ None }
    ensures going { OnOk result ((S.state store.new).ended ≡ false) }
    ensures unmarked { OnOk result ((S.state store.new).marked ≡ None) }
{
    for i in 0..rids.len() {
        if i % 5 == 0 {
            rids[i] = table.change(store, rids[i])?;
            table.count_change(store)?;
        }
    }
    Ok(())
}

// Deletes every seventh row.
fn delete_rows<S: Store>(table: &mut Filled, store: &mut S, rids: &[Rid]) -> Result<(), Stop>
    requires going { (S.state store.old).ended ≡ false }
    requires unmarked { (S.state store.old).marked ≡ None }
    ensures going { OnOk result ((S.state store.new).ended ≡ false) }
    ensures unmarked { OnOk result ((S.state store.new).marked ≡ None) }
{
    for (i, rid) in rids.iter().enumerate() {
        if i % 7 == 0 {
            table.delete(store, *rid)?;
            table.count_change(store)?;
        }
    }
    Ok(())
}
