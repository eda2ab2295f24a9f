// A database with no free extent left.
ghost use Rattle.std.specs.Prelude.{◌≡◌, false, None};
ghost use Rattle.mdc_ast.specs.TableLimits.{IsTableDef};

use crate::changes::{Held, check_blocks, delete, insert, insert_as, try_insert};
use crate::stores::fresh_store;
use crate::tables::{Table, TableKind, table_of};
use extent_map::SpaceFault;
use mdc_table::Account;
use mdc_values::Rid;
use std::alloc::Global;
use std::test::Fail;
use store_api::Pages;

// How many extents there are. The three trees take two of them, so there are fourteen blocks.
const EXTENTS: u32 = 16;

// All blocks are in use.
const ALL_USED: Account = Account {
    used: 14,
    free: 0,
    pending: 0,
};

// The place of the first row.
const FIRST_PLACE: Rid = Rid { block: 2, slot: 0 };

// The first row.
const FIRST: Held = Held {
    rid: FIRST_PLACE,
    number: 0,
    seed: 1,
};

// The row of the fifteenth cell, where it lies once the first has left.
const LAST: Held = Held {
    rid: FIRST_PLACE,
    number: 14,
    seed: 15,
};

// Inserts a row of each seed from 2 to 14.
fn fill<P: Pages>(alloc: Global, table: &mut Table, pages: &mut P) -> Result<(), Fail>
    requires defined { IsTableDef table.old.def.number table.old.def }
    requires going { (P.state pages.old).ended ≡ false }
    ensures defined { IsTableDef table.new.def.number table.new.def }
    ensures going { (P.state pages.new).ended ≡ false }
    ensures marked { (P.state pages.new).marked ≡ (P.state pages.old).marked }
{
    for seed in 2..15 {
        insert(alloc, table, pages, seed)?;
    }
    Ok(())
}

// Inserts a row of a fifteenth cell, which doesn't find a block, and undoes that.
fn insert_and_undo<P: Pages>(alloc: Global, table: &mut Table, pages: &mut P) -> Result<(), Fail>
    requires defined { IsTableDef table.old.def.number table.old.def }
    requires going { (P.state pages.old).ended ≡ false }
    requires unmarked { (P.state pages.old).marked ≡ None }
    ensures defined { IsTableDef table.new.def.number table.new.def }
    ensures going { (P.state pages.new).ended ≡ false }
{
    pages.mark();
    let answer = try_insert(alloc, table, pages, LAST.seed)?;
    pages.undo();
    table.notes.forget();
    table.rooms.forget();
    if answer != Err(SpaceFault::Full(EXTENTS)) {
        return Err(Fail::new("a file that isn't full"));
    }
    check_blocks(alloc, table, pages, ALL_USED)
}

// The first row leaves, and the one of the fifteenth cell takes its block.
fn retry<P: Pages>(alloc: Global, table: &mut Table, pages: &mut P) -> Result<(), Fail>
    requires defined { IsTableDef table.old.def.number table.old.def }
    requires going { (P.state pages.old).ended ≡ false }
{
    delete(alloc, table, pages, FIRST)?;
    insert_as(alloc, table, pages, LAST)?;
    check_blocks(alloc, table, pages, ALL_USED)
}

// Rows of fourteen cells come, and one of a fifteenth doesn't find a block; it is undone, and tried again once a block is Free.
fn fill_and_retry<P: Pages>(alloc: Global, table: &mut Table, pages: &mut P) -> Result<(), Fail>
    requires defined { IsTableDef table.old.def.number table.old.def }
    requires going { (P.state pages.old).ended ≡ false }
    requires unmarked { (P.state pages.old).marked ≡ None }
{
    insert_as(alloc, table, pages, FIRST)?;
    fill(alloc, table, pages)?;
    insert_and_undo(alloc, table, pages)?;
    retry(alloc, table, pages)
}

// The same in an empty database.
fn run_full<P: Pages>(alloc: Global, pages: &mut P) -> Result<(), Fail>
    requires going { (P.state pages.old).ended ≡ false }
    requires unmarked { (P.state pages.old).marked ≡ None }
{
    let mut table = table_of(alloc, TableKind::Wide, EXTENTS, pages)?;
    fill_and_retry(alloc, &mut table, pages)
}

#[test]
fn a_row_of_a_new_cell_finds_no_block(rt: HostRuntime) -> Result<(), Fail> {
    run_full(rt.alloc(), &mut fresh_store(rt.alloc())?)
}
