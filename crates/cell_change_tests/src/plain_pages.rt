// The database that the pages stand for, by the reference reader, beside a plain list.
ghost use Rattle.std.specs.Prelude.{◌≡◌, false};
ghost use Rattle.mdc_ast.specs.TableLimits.{IsTableDef};

use crate::plain_list::{PlainList, row_numbered};
use crate::rows::{is_same_row, row_of};
use crate::tables::Table;
use mdc_ast::Row;
use reference_reader::{ReadTable, read_database};
use std::alloc::Global;
use std::test::Fail;
use store_api::{Pages, blank_page, write_page};
use table_page::def_page;

// The page of the table 0, which is the one that these tests have.
const TABLE_PAGE: u32 = 1;

/// Whether the database that the pages stand for has one table, with the rows of the list. The definition comes to its page first.
pub fn stand_for_list<P: Pages>(
    alloc: Global,
    table: &Table,
    pages: &mut P,
    list: &PlainList,
) -> Result<bool, Fail>
    requires defined { IsTableDef table.now.def.number table.now.def }
    requires going { (P.state pages.old).ended ≡ false }
    ensures going { (P.state pages.new).ended ≡ false }
{
    write_definition(table, pages)?;
    let tables = read_database(alloc, table.shape, pages)?;
    are_one_of_list(alloc, table.def.next, list, tables.as_slice())
}

// Writes the definition onto its page.
fn write_definition<P: Pages>(table: &Table, pages: &mut P) -> Result<(), Fail>
    requires defined { IsTableDef table.now.def.number table.now.def }
    requires going { (P.state pages.old).ended ≡ false }
    ensures going { (P.state pages.new).ended ≡ false }
{
    if pages.count() <= TABLE_PAGE {
        return Err(Fail::new("no table page"));
    }
    let mut page = *blank_page();
    def_page(&table.def, &mut page);
    write_page(pages, TABLE_PAGE, &page)?;
    Ok(())
}

// Whether the table of the first place is that of the list, with this next number, and the other places are empty.
fn are_one_of_list(
    alloc: Global,
    next: u64,
    list: &PlainList,
    tables: &[Option<ReadTable>],
) -> Result<bool, Fail> {
    let Some((first, others)) = tables.split_first() else {
        return Ok(false);
    };
    if others.iter().any(|table| table.is_some()) {
        return Ok(false);
    }
    match first {
        Some(table) => Ok(
            table.def.next == next && are_of_list(alloc, list, table.rows.as_slice())?,
        ),
        None => Ok(false),
    }
}

// Whether rows are those of the list. Their numbers rise, as those of each table that is read do, so that none stands for another.
fn are_of_list(alloc: Global, list: &PlainList, rows: &[Row]) -> Result<bool, Fail> {
    for row in rows {
        if !is_of_list(alloc, list, row)? {
            return Ok(false);
        }
    }
    Ok(rows.len() == list.rows.len())
}

// Whether a row is the one of its number in the list.
fn is_of_list(alloc: Global, list: &PlainList, row: &Row) -> Result<bool, Fail> {
    let Some(held) = row_numbered(list, row.number) else {
        return Ok(false);
    };
    let wanted = row_of(alloc, list.kind, held.number, held.seed)?;
    Ok(is_same_row(row, &wanted))
}
