// Which columns may stand in a table.
ghost use Rattle.std.specs.List.{list_all, list_any};
ghost use Rattle.std.specs.Prelude.{◌≡◌, ◌↔◌, ◌&&◌, IsTrue, slice_get};
ghost use Rattle.mdc_ast.specs.Definitions as definitions;
ghost use Rattle.mdc_ast.specs.Definitions.{AllNamesDiffer, column_names};
ghost use Rattle.mdc_ast.specs.Kinds as kinds;
ghost use Rattle.mdc_values.specs.Fitting.{in_bigint};
ghost use Rattle.mdc_ast.specs.TableLimits as limits;
ghost use Rattle.mdc_ast.specs.TableLimits.{AreTableColumns};

use crate::key_limits::{column_at, is_narrow};
use crate::layout::MOST_COLUMNS;
use crate::name_limits::{is_given_name, is_same};
use mdc_ast::{ColumnDef, GenExpr, GenKind, Name};
use mdc_values::ColType;

/// Whether columns may be those of a table.
pub fn are_table_columns(columns: &[ColumnDef]) -> bool
    ensures { IsTrue result ↔ AreTableColumns columns.now }
{
    !columns.is_empty()
        && columns.len() <= MOST_COLUMNS
        && are_good_columns(columns, columns)
        && do_columns_differ(columns)
        && is_narrow(columns)
}

/// Whether each of some columns may stand beside those of its table.
fn are_good_columns(columns: &[ColumnDef], some: &[ColumnDef]) -> bool
    ensures { result ≡ list_all (limits.is_good_column columns.now) some.now }
{
    some.iter().all(|column| is_good_column(columns, column))
}

fn is_good_column(columns: &[ColumnDef], column: &ColumnDef) -> bool
    ensures { result ≡ limits.is_good_column columns.now column.now }
{
    is_given_name(&column.name)
        && is_good_type(column.ty)
        && is_good_source(columns, column.ty, column.made)
}

/// Whether a CHAR has a length within its limits.
fn is_good_type(ty: ColType) -> bool
    ensures { result ≡ definitions.is_good_type ty }
{
    match ty {
        ColType::Char(length) => (1..=254).contains(&length),
        ColType::Integer | ColType::Bigint | ColType::Date => true,
    }
}

/// Whether a column of a type may be made so, if it is made.
fn is_good_source(columns: &[ColumnDef], ty: ColType, made: Option<GenExpr>) -> bool
    ensures { result ≡ limits.is_good_source columns.now ty made }
{
    match made {
        Some(expression) => is_number(ty) && has_base(columns, expression),
        None => true,
    }
}

/// Whether the base of an expression is there, and may be its base.
fn has_base(columns: &[ColumnDef], expression: GenExpr) -> bool
    ensures { result ≡ (in_bigint expression.k && limits.is_base_of expression (slice_get columns.now expression.base)) }
{
    match column_at(columns, expression.base) {
        Some(base) => {
            base.made.is_none() && accepts_base(expression.kind, base.ty, expression.k)
        }
        None => false,
    }
}

fn accepts_base(kind: GenKind, ty: ColType, k: i64) -> bool
    ensures { result ≡ limits.accepts_base kind ty k }
{
    match kind {
        GenKind::IntegerOver => is_day(ty) && k >= 1,
        GenKind::Year => is_day(ty) && k == 0,
        GenKind::Month => is_day(ty) && k == 0,
        GenKind::Over => is_number(ty) && k >= 1,
        GenKind::Plus => is_number(ty),
    }
}

fn is_day(ty: ColType) -> bool
    ensures { result ≡ limits.is_day_type ty }
{
    matches!(ty, ColType::Date)
}

fn is_number(ty: ColType) -> bool
    ensures { result ≡ kinds.is_number ty }
{
    matches!(ty, ColType::Integer | ColType::Bigint)
}

/// Whether no name of a column stands twice.
fn do_columns_differ(columns: &[ColumnDef]) -> bool
    ensures { IsTrue result ↔ AllNamesDiffer (column_names columns.now) }
{
    for (i, column) in columns.iter().enumerate() {
        if is_column_among(&column.name, &columns[i + 1..]) {
            return false;
        }
    }
    true
}

fn is_column_among(name: &Name, columns: &[ColumnDef]) -> bool
    ensures { result ≡ list_any (λ column. definitions.is_same name.now column.name) columns.now }
{
    columns.iter().any(|column| is_same(name, &column.name))
}
