// One change of a table each.
ghost use Rattle.std.specs.Prelude.{◌≡◌, false, IfOk};
ghost use Rattle.mdc_ast.specs.TableLimits.{IsTableDef};
ghost use Rattle.mdc_ast.specs.FittingRows.{RowFits};

use crate::fitting::does_fit;
use crate::rows::{is_same_row, row_of};
use crate::tables::{Table, TableKind};
use crate::wrong::Wrong;
use cell_change::{change_row, delete_row, insert_row};
use extent_map::SpaceFault;
use mdc_ast::{Row, TableDef};
use mdc_table::{Account, account_of, row_at};
use mdc_values::Rid;
use std::alloc::Global;
use std::test::Fail;
use store_api::Pages;

/// A row that lies in a table.
#[derive(Clone, Copy, PartialEq)]
pub struct Held {
    pub rid: Rid,
    pub number: u64,
    pub seed: u64,
}

// The row of a number and a seed, which fits the definition.
fn fitting_row(
    alloc: Global,
    kind: TableKind,
    def: &TableDef,
    number: u64,
    seed: u64,
) -> Result<Row, Fail>
    ensures number { IfOk result (λ row. row.number ≡ number) }
    ensures fits { IfOk result (RowFits def.now) }
{
    let row = row_of(alloc, kind, number, seed)?;
    if !does_fit(def, &row) {
        return Err(Fail::new("a row that doesn't fit"));
    }
    Ok(row)
}

/// What inserting the next row answers, made of a seed.
pub fn try_insert<P: Pages>(
    alloc: Global,
    table: &mut Table,
    pages: &mut P,
    seed: u64,
) -> Result<Result<Rid, SpaceFault>, Fail>
    requires defined { IsTableDef table.old.def.number table.old.def }
    requires going { (P.state pages.old).ended ≡ false }
    ensures defined { IsTableDef table.new.def.number table.new.def }
    ensures going { (P.state pages.new).ended ≡ false }
    ensures marked { (P.state pages.new).marked ≡ (P.state pages.old).marked }
{
    let Table {
        kind,
        def,
        shape,
        notes,
        rooms,
    } = table;
    if def.next == u64::MAX {
        return Err(Fail::new("no number is left"));
    }
    let row = fitting_row(alloc, *kind, def, def.next, seed)?;
    Ok(insert_row(alloc, def, *shape, notes, rooms, pages, &row))
}

/// Inserts the next row.
pub fn insert<P: Pages>(
    alloc: Global,
    table: &mut Table,
    pages: &mut P,
    seed: u64,
) -> Result<Held, Fail>
    requires defined { IsTableDef table.old.def.number table.old.def }
    requires going { (P.state pages.old).ended ≡ false }
    ensures defined { IsTableDef table.new.def.number table.new.def }
    ensures going { (P.state pages.new).ended ≡ false }
    ensures marked { (P.state pages.new).marked ≡ (P.state pages.old).marked }
{
    let number = table.def.next;
    let rid = try_insert(alloc, table, pages, seed)??;
    Ok(Held { rid, number, seed })
}

// Fails where a row is another one.
fn check_row(is: Held, wanted: Held) -> Result<(), Fail> {
    if is != wanted {
        return Err(Fail::from(Wrong::Row(is.rid, is.number)));
    }
    Ok(())
}

/// Inserts the next row, which has to be this one.
pub fn insert_as<P: Pages>(
    alloc: Global,
    table: &mut Table,
    pages: &mut P,
    wanted: Held,
) -> Result<(), Fail>
    requires defined { IsTableDef table.old.def.number table.old.def }
    requires going { (P.state pages.old).ended ≡ false }
    ensures defined { IsTableDef table.new.def.number table.new.def }
    ensures going { (P.state pages.new).ended ≡ false }
    ensures marked { (P.state pages.new).marked ≡ (P.state pages.old).marked }
{
    check_row(insert(alloc, table, pages, wanted.seed)?, wanted)
}

/// Deletes a row.
pub fn delete<P: Pages>(
    alloc: Global,
    table: &mut Table,
    pages: &mut P,
    held: Held,
) -> Result<(), Fail>
    requires defined { IsTableDef table.old.def.number table.old.def }
    requires going { (P.state pages.old).ended ≡ false }
    ensures defined { IsTableDef table.new.def.number table.new.def }
    ensures going { (P.state pages.new).ended ≡ false }
{
    let Table {
        kind,
        def,
        shape,
        notes,
        rooms,
    } = table;
    let row = fitting_row(alloc, *kind, def, held.number, held.seed)?;
    delete_row(alloc, def, *shape, notes, rooms, pages, held.rid, &row)?;
    Ok(())
}

/// Makes a row the one of another seed.
pub fn change<P: Pages>(
    alloc: Global,
    table: &mut Table,
    pages: &mut P,
    held: Held,
    seed: u64,
) -> Result<Held, Fail>
    requires defined { IsTableDef table.old.def.number table.old.def }
    requires going { (P.state pages.old).ended ≡ false }
    ensures defined { IsTableDef table.new.def.number table.new.def }
    ensures going { (P.state pages.new).ended ≡ false }
{
    let Table {
        kind,
        def,
        shape,
        notes,
        rooms,
    } = table;
    let was = fitting_row(alloc, *kind, def, held.number, held.seed)?;
    let is = fitting_row(alloc, *kind, def, held.number, seed)?;
    let rid = change_row(
        alloc, def, *shape, notes, rooms, pages, None, held.rid, &was, &is,
    )?;
    Ok(Held {
        rid,
        number: held.number,
        seed,
    })
}

/// Makes a row this other one, which has to go where it is.
pub fn change_to<P: Pages>(
    alloc: Global,
    table: &mut Table,
    pages: &mut P,
    held: Held,
    wanted: Held,
) -> Result<(), Fail>
    requires defined { IsTableDef table.old.def.number table.old.def }
    requires going { (P.state pages.old).ended ≡ false }
    ensures defined { IsTableDef table.new.def.number table.new.def }
    ensures going { (P.state pages.new).ended ≡ false }
{
    check_row(change(alloc, table, pages, held, wanted.seed)?, wanted)
}

/// How many blocks the table has in each state.
pub fn blocks_of<P: Pages>(alloc: Global, table: &Table, pages: &mut P) -> Result<Account, Fail>
    requires going { (P.state pages.old).ended ≡ false }
    ensures going { (P.state pages.new).ended ≡ false }
{
    Ok(account_of(alloc, &table.def, table.shape, pages)?)
}

/// Fails where the table has another number of blocks in a state.
pub fn check_blocks<P: Pages>(
    alloc: Global,
    table: &Table,
    pages: &mut P,
    wanted: Account,
) -> Result<(), Fail>
    requires going { (P.state pages.old).ended ≡ false }
    ensures going { (P.state pages.new).ended ≡ false }
{
    let account = blocks_of(alloc, table, pages)?;
    if account != wanted {
        return Err(Fail::from(Wrong::Blocks(account)));
    }
    Ok(())
}

/// Whether a row of a number and a seed lies in a place, and whether no row does.
pub fn looked_at<P: Pages>(
    alloc: Global,
    table: &Table,
    pages: &mut P,
    held: Held,
) -> Result<(bool, bool), Fail>
    requires defined { IsTableDef table.now.def.number table.now.def }
    requires going { (P.state pages.old).ended ≡ false }
    ensures going { (P.state pages.new).ended ≡ false }
{
    let row = row_of(alloc, table.kind, held.number, held.seed)?;
    match row_at(alloc, &table.def, table.shape, pages, held.rid)? {
        Some(found) => Ok((is_same_row(&found, &row), false)),
        None => Ok((false, true)),
    }
}

/// Fails where a row doesn't lie in its place, or where its place isn't empty.
pub fn check_place<P: Pages>(
    alloc: Global,
    table: &Table,
    pages: &mut P,
    held: Held,
    is_there: bool,
) -> Result<(), Fail>
    requires defined { IsTableDef table.now.def.number table.now.def }
    requires going { (P.state pages.old).ended ≡ false }
    ensures going { (P.state pages.new).ended ≡ false }
{
    let seen = looked_at(alloc, table, pages, held)?;
    if seen != (is_there, !is_there) {
        return Err(Fail::from(Wrong::Place(held.rid)));
    }
    Ok(())
}

/// The row that came at this place.
pub fn held_at(all: &[Held], i: usize) -> Result<Held, Fail> {
    match all.get(i) {
        Some(held) => Ok(*held),
        None => Err(Fail::new("no such row")),
    }
}
