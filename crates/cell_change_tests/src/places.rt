// Where rows of the wide table go. Its trees take the extents 0 and 1, so its blocks are 2, 3 and so on, of 10 rows each.
ghost use Rattle.std.specs.Prelude.{◌≡◌, false};
ghost use Rattle.mdc_ast.specs.TableLimits.{IsTableDef};

use crate::changes::{Held, change_to, check_blocks, check_place, delete, insert_as};
use crate::stores::fresh_store;
use crate::tables::{Table, TableKind, table_of};
use mdc_table::Account;
use mdc_values::Rid;
use std::alloc::Global;
use std::test::Fail;
use store_api::Pages;

// A change of the table, or a look at it.
#[derive(Clone, Copy)]
enum Step {
    // The first eleven rows come, all of the cell 1.
    ElevenCome,
    // The next row comes, and is this one.
    Comes(Held),
    // A row becomes the other one.
    Becomes(Held, Held),
    Leaves(Held),
    // So many blocks are Used and so many Free, and none is Pending.
    Blocks(u64, u64),
    // A row lies in its place.
    IsThere(Held),
    // No row lies in the place of this one.
    IsEmpty(Held),
}

// Inserts the rows 0 to 10 of the cell 1: ten go into block 2, and one into block 3.
fn insert_eleven<P: Pages>(alloc: Global, table: &mut Table, pages: &mut P) -> Result<(), Fail>
    requires defined { IsTableDef table.old.def.number table.old.def }
    requires going { (P.state pages.old).ended ≡ false }
    ensures defined { IsTableDef table.new.def.number table.new.def }
    ensures going { (P.state pages.new).ended ≡ false }
{
    for i in 0..11u16 {
        let block = if i < 10 { 2 } else { 3 };
        let wanted = held(u64::from(i), 1, block, i % 10);
        insert_as(alloc, table, pages, wanted)?;
    }
    Ok(())
}

// Makes a change, or fails where something else is seen.
fn play<P: Pages>(alloc: Global, table: &mut Table, pages: &mut P, step: Step) -> Result<(), Fail>
    requires defined { IsTableDef table.old.def.number table.old.def }
    requires going { (P.state pages.old).ended ≡ false }
    ensures defined { IsTableDef table.new.def.number table.new.def }
    ensures going { (P.state pages.new).ended ≡ false }
{
    match step {
        Step::ElevenCome => insert_eleven(alloc, table, pages),
        Step::Comes(held) => insert_as(alloc, table, pages, held),
        Step::Becomes(held, other) => change_to(alloc, table, pages, held, other),
        Step::Leaves(held) => delete(alloc, table, pages, held),
        Step::Blocks(used, free) => check_blocks(alloc, table, pages, account(used, free)),
        Step::IsThere(held) => check_place(alloc, table, pages, held, true),
        Step::IsEmpty(held) => check_place(alloc, table, pages, held, false),
    }
}

// Plays these steps, one after another.
fn play_all<P: Pages>(
    alloc: Global,
    table: &mut Table,
    pages: &mut P,
    steps: &[Step],
) -> Result<(), Fail>
    requires defined { IsTableDef table.old.def.number table.old.def }
    requires going { (P.state pages.old).ended ≡ false }
{
    for step in steps {
        play(alloc, table, pages, *step)?;
    }
    Ok(())
}

// Plays these steps on a new table in an empty database.
fn run_steps<P: Pages>(alloc: Global, pages: &mut P, steps: &[Step]) -> Result<(), Fail>
    requires going { (P.state pages.old).ended ≡ false }
{
    let mut table = table_of(alloc, TableKind::Wide, 16, pages)?;
    play_all(alloc, &mut table, pages, steps)
}

// Used and Free blocks, and no Pending one.
fn account(used: u64, free: u64) -> Account {
    Account {
        used,
        free,
        pending: 0,
    }
}

// A row by its number and its seed, in a slot of a block.
fn held(number: u64, seed: u64, block: u32, slot: u16) -> Held {
    Held {
        rid: Rid { block, slot },
        number,
        seed,
    }
}

// Eleven rows come, and the last leaves; a row of another cell comes, and rows move to a third and a fourth cell.
#[test]
fn rows_go_where_placing_says(rt: HostRuntime) -> Result<(), Fail> {
    let other = held(11, 2, 3, 0);
    let steps = [
        Step::ElevenCome,
        Step::Blocks(2, 0),
        Step::Leaves(held(10, 1, 3, 0)),
        Step::Blocks(1, 1),
        Step::Comes(other),
        Step::Blocks(2, 0),
        Step::Becomes(held(4, 1, 2, 4), held(4, 3, 4, 0)),
        Step::Blocks(3, 0),
        Step::Becomes(other, held(11, 4, 3, 0)),
        Step::Blocks(3, 0),
    ];
    run_steps(rt.alloc(), &mut fresh_store(rt.alloc())?, &steps)
}

// A row becomes another of its cell; then it is looked at, and so are an empty slot beside it and, once it is deleted, its place.
#[test]
fn a_row_that_keeps_its_cell_keeps_its_place(rt: HostRuntime) -> Result<(), Fail> {
    let first = held(0, 1, 2, 0);
    let changed = held(0, 101, 2, 0);
    let steps = [
        Step::Comes(first),
        Step::Becomes(first, changed),
        Step::IsThere(changed),
        Step::IsEmpty(held(1, 1, 2, 1)),
        Step::Leaves(changed),
        Step::IsEmpty(changed),
    ];
    run_steps(rt.alloc(), &mut fresh_store(rt.alloc())?, &steps)
}
