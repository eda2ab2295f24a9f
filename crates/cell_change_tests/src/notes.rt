// Rows go to the same places whether the notes of rooms are kept or lost.
ghost use Rattle.std.specs.Prelude.{◌≡◌, false};
ghost use Rattle.mdc_ast.specs.TableLimits.{IsTableDef};

use crate::changes::{Held, delete, held_at, insert};
use crate::stores::fresh_store;
use crate::tables::{Table, TableKind, table_of};
use mdc_values::Rid;
use std::alloc::Global;
use std::test::Fail;
use store_api::Pages;

// Inserts a row of the one cell and notes where it lies, behind forgetting the notes or not.
fn put_one<P: Pages>(
    alloc: Global,
    table: &mut Table,
    pages: &mut P,
    all: &mut Vec<Held>,
    forgets: bool,
) -> Result<(), Fail>
    requires defined { IsTableDef table.old.def.number table.old.def }
    requires going { (P.state pages.old).ended ≡ false }
    ensures defined { IsTableDef table.new.def.number table.new.def }
    ensures going { (P.state pages.new).ended ≡ false }
{
    if forgets {
        table.rooms.forget();
    }
    all.push(insert(alloc, table, pages, 1)?)?;
    Ok(())
}

// Inserts so many rows.
fn put_many<P: Pages>(
    alloc: Global,
    table: &mut Table,
    pages: &mut P,
    all: &mut Vec<Held>,
    forgets: bool,
    many: u32,
) -> Result<(), Fail>
    requires defined { IsTableDef table.old.def.number table.old.def }
    requires going { (P.state pages.old).ended ≡ false }
    ensures defined { IsTableDef table.new.def.number table.new.def }
    ensures going { (P.state pages.new).ended ≡ false }
{
    for _ in 0..many {
        put_one(alloc, table, pages, all, forgets)?;
    }
    Ok(())
}

// Takes out the row that came at this place.
fn take_one<P: Pages>(
    alloc: Global,
    table: &mut Table,
    pages: &mut P,
    all: &[Held],
    place: usize,
) -> Result<(), Fail>
    requires defined { IsTableDef table.old.def.number table.old.def }
    requires going { (P.state pages.old).ended ≡ false }
    ensures defined { IsTableDef table.new.def.number table.new.def }
    ensures going { (P.state pages.new).ended ≡ false }
{
    delete(alloc, table, pages, held_at(all, place)?)
}

// Inserts 58 rows of one cell; once 55 have come, the rows 33 and 12 are taken out.
fn put_and_take<P: Pages>(
    alloc: Global,
    table: &mut Table,
    pages: &mut P,
    all: &mut Vec<Held>,
    forgets: bool,
) -> Result<(), Fail>
    requires defined { IsTableDef table.old.def.number table.old.def }
    requires going { (P.state pages.old).ended ≡ false }
{
    put_many(alloc, table, pages, all, forgets, 55)?;
    take_one(alloc, table, pages, all, 33)?;
    take_one(alloc, table, pages, all, 12)?;
    put_many(alloc, table, pages, all, forgets, 3)
}

// The same in an empty database.
fn put_in_new<P: Pages>(
    alloc: Global,
    pages: &mut P,
    all: &mut Vec<Held>,
    forgets: bool,
) -> Result<(), Fail>
    requires going { (P.state pages.old).ended ≡ false }
{
    let mut table = table_of(alloc, TableKind::Wide, 16, pages)?;
    put_and_take(alloc, &mut table, pages, all, forgets)
}

// The place of a row in a list.
fn rid_at(all: &[Held], i: usize) -> Option<Rid> {
    match all.get(i) {
        Some(held) => Some(held.rid),
        None => None,
    }
}

// Whether the last row before two leave, and the three that come then, lie where placing says.
fn lie_right(all: &[Held]) -> bool {
    rid_at(all, 54) == Some(Rid { block: 7, slot: 4 })
        && rid_at(all, 55) == Some(Rid { block: 3, slot: 2 })
        && rid_at(all, 56) == Some(Rid { block: 5, slot: 3 })
        && rid_at(all, 57) == Some(Rid { block: 7, slot: 5 })
}

// Puts the rows into two stores, with notes and without; fails where they lie differently, or elsewhere than placing says.
fn put_twice(alloc: Global, kept: &mut Vec<Held>, lost: &mut Vec<Held>) -> Result<(), Fail> {
    put_in_new(alloc, &mut fresh_store(alloc)?, kept, false)?;
    put_in_new(alloc, &mut fresh_store(alloc)?, lost, true)?;
    if *kept != *lost {
        return Err(Fail::new("other places without notes"));
    }
    if !lie_right(kept) {
        return Err(Fail::new("other places than placing says"));
    }
    Ok(())
}

#[test]
fn rows_go_to_the_same_places_without_notes(rt: HostRuntime) -> Result<(), Fail> {
    let alloc = rt.alloc();
    put_twice(alloc, &mut Vec::new(alloc), &mut Vec::new(alloc))
}
