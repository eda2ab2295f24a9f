// The record index that a CREATE INDEX makes, and the one that a DROP INDEX takes out.
ghost use Rattle.std.specs.Prelude.{◌≡◌, ◌<◌, ◌≤◌, length, IfOk, IfSome};
ghost use Rattle.mdc_ast.specs.Definitions.{index_place_of};
ghost use Rattle.mdc_ast.specs.ValidDatabase.{AreValidDefs};
ghost use Rattle.statement_meaning.specs.Binding as binding;

use crate::names::copy_of;
use crate::query_binding::bound_keys;
use catalog::Catalog;
use mdc_ast::{Bound, ColumnDef, IndexDef, KeyText, Name};
use mdc_values::Memory;
use std::alloc::Global;

/// A record index that isn't in a database yet, on a table of these columns: its root is 0.
pub fn bound_index(
    alloc: Global,
    columns: &[ColumnDef],
    name: &Name,
    unique: bool,
    parts: &[KeyText],
) -> Result<IndexDef, Memory>
    requires { length columns.now ≤ 16 }
    ensures { IfOk result (λ index. index ≡ binding.bound_index columns.now name.now unique parts.now) }
{
    Ok(IndexDef {
        name: copy_of(alloc, name)?,
        unique,
        parts: bound_keys(alloc, columns, parts)?,
        root: 0,
    })
}

/// A DROP INDEX, by the place of the table and the index's own.
pub fn bound_drop_index(name: &Name, catalog: &Catalog) -> Bound
    requires { AreValidDefs catalog.now }
    ensures { result ≡ binding.bound_drop_index (index_place_of catalog.now name.now) }
{
    match index_there(name, catalog) {
        Some((table, index)) => Bound::DropIndex {
            table,
            index: index as u8,
        },
        None => Bound::Begin,
    }
}

// The place of the record index of that name, of which a table has at most 8.
fn index_there(name: &Name, catalog: &Catalog) -> Option<(u8, usize)>
    requires { AreValidDefs catalog.now }
    ensures found { result ≡ index_place_of catalog.now name.now }
    ensures few { IfSome result (λ found. found.1 < 8) }
{
    catalog.index(name)
}
