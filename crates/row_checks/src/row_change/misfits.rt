// What is said against the rows of an INSERT, and against the new values of a row.
ghost use Rattle.std.specs.Prelude.{◌≡◌, ◌<◌, ◌++◌, ◌&&◌, length, flat_map, option_map, IsTrue};
ghost use Rattle.mdc_values.specs.declared.value.Value.TheVariants.{Int, Text};
ghost use Rattle.statement_meaning.specs.Doing as spec;
ghost use Rattle.statement_meaning.specs.Doing.{changed_causes, null_causes, outgrows, set_causes, set_on};
ghost use Rattle.binder.specs.Saying.{first_of};
ghost use Rattle.row_checks.specs.Executing.{are_tuples_wide};
ghost use Rattle.row_filter.specs.Filtering.{may_filter};
ghost use Rattle.row_checks.specs.RowChange.{are_within, is_null_at, is_within, misfit_cause, value_given};

use crate::filtering::qualifies;
use crate::row_change::given::{Given, is_null, item_on};
use mdc_ast::{BoundSet, ColumnDef, Name, Pred, Row};
use mdc_values::{ColType, List, Value};

/// Why the new values of a row don't fit the columns of its table.
#[derive(Clone, Copy, Debug)]
pub enum Misfit<'c> {
    Overflow(&'c Name),
    TextTooLong(&'c Name),
    NullIn(&'c Name),
}

/// The first null in a column that takes none, tuple by tuple. It takes no memory.
pub fn first_null_in<'c>(columns: &'c [ColumnDef], tuples: &[List<Value>]) -> Option<Misfit<'c>>
    requires { IsTrue (are_tuples_wide (length columns.now) tuples.now) }
    ensures { first_of (flat_map (null_causes columns.now) tuples.now) ≡ option_map misfit_cause result }
{
    for tuple in tuples {
        let found = null_among(columns, &[], tuple.as_slice());
        if found.is_some() {
            return found;
        }
    }
    None
}

/// What is said first against a row as an UPDATE would have it; nothing is said against one that doesn't qualify. It takes no
/// memory. It needs that the columns that the items and the predicate name are there.
pub fn first_misfit_of_row<'c>(
    columns: &'c [ColumnDef],
    sets: &[BoundSet],
    pred: &Option<Pred>,
    row: &Row,
) -> Option<Misfit<'c>>
    requires within { IsTrue (are_within (length columns.now) sets.now) }
    requires wide { length row.now.values ≡ length columns.now }
    requires filterable { IsTrue (may_filter pred.now row.now.values) }
    ensures { first_of (changed_causes columns.now sets.now pred.now row.now) ≡ option_map misfit_cause result }
{
    if qualifies(pred, row) {
        first_misfit(columns, sets, row.values.as_slice())
    } else {
        None
    }
}

/// What is said first against a row once its columns are set: by the items in the order of the text, and then by the
/// nulls in the order of the table. It takes no memory. It needs that the columns that the items name are there.
pub fn first_misfit<'c>(
    columns: &'c [ColumnDef],
    sets: &[BoundSet],
    values: &[Value],
) -> Option<Misfit<'c>>
    requires width { length values.now ≡ length columns.now }
    requires within { IsTrue (are_within (length columns.now) sets.now) }
    ensures { first_of (flat_map (set_causes columns.now values.now) sets.now ++ null_causes columns.now (set_on values.now sets.now values.now)) ≡ option_map misfit_cause result }
{
    match outgrowing(columns, sets, values) {
        Some(misfit) => Some(misfit),
        None => null_among(columns, sets, values),
    }
}

// The first item that gives more than its column holds.
fn outgrowing<'c>(
    columns: &'c [ColumnDef],
    sets: &[BoundSet],
    values: &[Value],
) -> Option<Misfit<'c>>
    requires width { length values.now ≡ length columns.now }
    requires within { IsTrue (are_within (length columns.now) sets.now) }
    ensures { first_of (flat_map (set_causes columns.now values.now) sets.now) ≡ option_map misfit_cause result }
{
    for set in sets {
        let found = outgrown(columns, set, values);
        if found.is_some() {
            return found;
        }
    }
    None
}

fn outgrown<'c>(columns: &'c [ColumnDef], set: &BoundSet, values: &[Value]) -> Option<Misfit<'c>>
    requires width { length values.now ≡ length columns.now }
    requires within { IsTrue (is_within (length columns.now) set.now) }
    ensures { first_of (set_causes columns.now values.now set.now) ≡ option_map misfit_cause result }
{
    let column = &columns[set.column as usize];
    larger_than(column, item_on(values, &set.item))
}

// What a column is too small for.
fn larger_than<'c>(column: &'c ColumnDef, given: Given<'_>) -> Option<Misfit<'c>>
    ensures { first_of (outgrows column.now (value_given given.entry)) ≡ option_map misfit_cause result }
{
    match given {
        Given::Lent(value) => value_larger_than(column, value),
        Given::Number(number) => number_outside(column, number),
        Given::Null => None,
    }
}

fn value_larger_than<'c>(column: &'c ColumnDef, value: &Value) -> Option<Misfit<'c>>
    ensures { first_of (outgrows column.now value.now) ≡ option_map misfit_cause result }
{
    match value {
        Value::Int(number) => number_outside(column, i128::from(*number)),
        Value::Text(text) => text_longer_than(column, text.bytes()),
        Value::Null => None,
        Value::Day(_) => None,
    }
}

fn number_outside<'c>(column: &'c ColumnDef, number: i128) -> Option<Misfit<'c>>
    ensures { first_of (outgrows column.now (Int number)) ≡ option_map misfit_cause result }
{
    if holds_number(column.ty, number) {
        None
    } else {
        Some(Misfit::Overflow(&column.name))
    }
}

/// Whether a number lies in the range of a column.
pub fn holds_number(ty: ColType, number: i128) -> bool
    ensures { result ≡ spec.holds_number ty number }
{
    match ty {
        ColType::Integer => i32::try_from(number).is_ok(),
        ColType::Bigint => i64::try_from(number).is_ok(),
        ColType::Char(_) => false,
        ColType::Date => false,
    }
}

fn text_longer_than<'c>(column: &'c ColumnDef, text: &[u8]) -> Option<Misfit<'c>>
    ensures { first_of (outgrows column.now (Text text.now)) ≡ option_map misfit_cause result }
{
    match column.ty {
        ColType::Char(limit) if text.len() > limit as usize => {
            Some(Misfit::TextTooLong(&column.name))
        }
        _ => None,
    }
}

// The first column that takes no null and would have one.
fn null_among<'c>(
    columns: &'c [ColumnDef],
    sets: &[BoundSet],
    values: &[Value],
) -> Option<Misfit<'c>>
    requires width { length values.now ≡ length columns.now }
    requires within { IsTrue (are_within (length columns.now) sets.now) }
    ensures { first_of (null_causes columns.now (set_on values.now sets.now values.now)) ≡ option_map misfit_cause result }
{
    for (place, column) in columns.iter().enumerate() {
        if has_no_value(column, place, sets, values) {
            return Some(Misfit::NullIn(&column.name));
        }
    }
    None
}

// Whether a column takes no null and would have one.
fn has_no_value(column: &ColumnDef, place: usize, sets: &[BoundSet], values: &[Value]) -> bool
    requires there { place < length values.now }
    requires within { IsTrue (are_within (length values.now) sets.now) }
    ensures { result ≡ (column.now.not_null && is_null_at place (set_on values.now sets.now values.now)) }
{
    column.not_null && is_null_after(place, sets, values)
}

// Whether a column is null once the columns are set.
fn is_null_after(place: usize, sets: &[BoundSet], values: &[Value]) -> bool
    requires there { place < length values.now }
    requires within { IsTrue (are_within (length values.now) sets.now) }
    ensures { result ≡ is_null_at place (set_on values.now sets.now values.now) }
{
    let mut null = matches!(values[place], Value::Null);
    for set in sets {
        if set.column as usize == place {
            null = is_null(item_on(values, &set.item));
        }
    }
    null
}
