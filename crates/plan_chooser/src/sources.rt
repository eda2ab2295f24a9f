// Where the rows with a value of a column are listed.
ghost use Rattle.std.specs.Prelude.{◌≡◌, ◌<◌, length};
ghost use Rattle.plan_chooser.specs.Sources as spec;

use crate::Source;
use mdc_ast::{IndexDef, PlanMode, TableDef};
use mdc_values::List;

/// Where the rows with a value of a column are listed, for a test on what is unequal or for another.
pub(crate) fn source_of(def: &TableDef, mode: PlanMode, unequal: bool, column: u8) -> Option<Source>
    requires dims { length def.now.dims < 256 }
    requires indexes { length def.now.indexes < 256 }
    ensures { result ≡ spec.source_of def.now mode unequal column }
{
    if takes_blocks(mode) {
        if let Some(dim) = dimension_of(def, column) {
            return Some(Source::Dimension(dim));
        }
    }
    if takes_records(mode) && !unequal {
        if let Some(index) = index_of(def, column) {
            return Some(Source::Index(index));
        }
    }
    None
}

fn takes_blocks(mode: PlanMode) -> bool
    ensures { result ≡ spec.takes_blocks mode }
{
    match mode {
        PlanMode::Record => false,
        PlanMode::Auto | PlanMode::Scan | PlanMode::Block => true,
    }
}

fn takes_records(mode: PlanMode) -> bool
    ensures { result ≡ spec.takes_records mode }
{
    match mode {
        PlanMode::Block => false,
        PlanMode::Auto | PlanMode::Scan | PlanMode::Record => true,
    }
}

/// The dimension that has a column.
fn dimension_of(def: &TableDef, column: u8) -> Option<u8>
    requires { length def.now.dims < 256 }
    ensures { result ≡ spec.dimension_of def.now column }
{
    let mut at = 0;
    for dim in def.dims.as_slice() {
        if stands_in(dim, column) {
            return Some(at);
        }
        at += 1;
    }
    None
}

/// The earliest index that begins with a column.
fn index_of(def: &TableDef, column: u8) -> Option<u8>
    requires { length def.now.indexes < 256 }
    ensures { result ≡ spec.index_of def.now column }
{
    let mut at = 0;
    for index in def.indexes.as_slice() {
        if begins_with(index, column) {
            return Some(at);
        }
        at += 1;
    }
    None
}

fn stands_in(places: &List<u8>, column: u8) -> bool
    ensures { result ≡ spec.stands_in places.now column }
{
    places.as_slice().iter().any(|place| *place == column)
}

fn begins_with(index: &IndexDef, column: u8) -> bool
    ensures { result ≡ spec.begins_with index.now.parts column }
{
    match index.parts.as_slice().first() {
        Some(part) => part.column == column,
        None => false,
    }
}
