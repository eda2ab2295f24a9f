// A table, as its pages tell it.
ghost use Rattle.std.specs.Prelude.{◌≡◌, ◌+◌, ◌<◌, false, IsTrue, IfOk};
ghost use Rattle.store_api.specs.Causes.{fault_of};
ghost use Rattle.store_api.specs.Frame.{NoPage};
ghost use Rattle.store_api.specs.RunsOverPages.{RunsOverPages};
ghost use Rattle.reference_reader.specs.ReadPages.{BreaksReading, IsPlainPage};
ghost use Rattle.reference_reader.specs.ReadTables.{ReadsPlace};

use crate::definition::read_definition;
use crate::order::sort_rows;
use crate::rows::rows_of_table;
use mdc_ast::{Row, TableDef};
use mdc_values::List;
use std::alloc::Global;
use store_api::layout::FIRST_TABLE_PAGE;
use store_api::rules::KEYS_RULE;
use store_api::{Damage, Pages, Shape, StoreFault};

/// A table that was read: its definition, and its rows by rising number.
#[derive(Debug, Drop)]
pub struct ReadTable {
    pub def: TableDef,
    pub rows: List<Row>,
}

/// The table of a place, or None where the table page has zeros alone.
pub fn read_table<P: Pages>(
    alloc: Global,
    shape: Shape,
    pages: &mut P,
    t: u8,
) -> Result<Option<ReadTable>, StoreFault>
    requires place { t < 16 }
    requires going { (P.state pages.old).ended ≡ false }
    ensures reads { IfOk result (λ table. IsTrue (P.state pages.old).is_told → ReadsPlace shape (P.state pages.old).work t table) }
    ensures same { (P.state pages.new).work ≡ (P.state pages.old).work }
    ensures runs { RunsOverPages P.Pages NoPage (IsPlainPage shape (P.state pages.old)) (BreaksReading shape (P.state pages.old)) pages.old pages.new (fault_of result) }
{
    let found = read_definition(alloc, shape, pages, t)?;
    let Some(def) = found else {
        return Ok(None);
    };
    let mut rows = rows_of_table(alloc, shape, pages, &def)?;
    if !sort_rows(&mut rows)? {
        return Err(number_twice(t));
    }
    Ok(Some(ReadTable {
        def,
        rows: List::from_vec(rows),
    }))
}

/// The fault of a table in which a row number stands twice.
fn number_twice(t: u8) -> StoreFault
    requires { t < 16 }
    ensures { result ≡ StoreFault.Damaged (record { page = 1 + t; rule = 12 }) }
{
    StoreFault::Damaged(Damage {
        page: FIRST_TABLE_PAGE + u32::from(t),
        rule: KEYS_RULE,
    })
}
