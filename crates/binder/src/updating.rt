// The columns that an UPDATE sets: what is said against them.
ghost use Rattle.std.specs.Prelude.{◌≡◌, [], ◌++◌, flat_map};
ghost use Rattle.std.specs.List.{list_any};
ghost use Rattle.mdc_values.specs.Fitting.{in_bigint, signed};
ghost use Rattle.statement_meaning.specs.Cause.{ColumnTwice, cause_if};
ghost use Rattle.mdc_ast.specs.Definitions.{is_same};
ghost use Rattle.statement_meaning.specs.Judged.{counts, item_columns, item_types, item_values, set_columns, wide_number};
ghost use Rattle.statement_meaning.specs.Judging.{used_name};
ghost use Rattle.binder.specs.Classes.{setting_causes, target_causes};
ghost use Rattle.binder.specs.Saying.{first_of, said_by};

use crate::filtering::{judge_kinds, judge_operand};
use crate::kinds::is_number;
use crate::literals::{Class, judge_literal};
use crate::names::{column_named, is_same, judge_used};
use crate::objection::Objection;
use mdc_ast::{ColumnDef, Name, Operand, SetItem, SetText};
use mdc_values::Literal;
use std::alloc::Global;

/// Judges the columns that are set and the columns of their operands. A column that is set isn't among those before it.
pub fn judge_set_columns<'a>(
    columns: &[ColumnDef],
    sets: &'a [SetText],
) -> Result<(), Objection<'a>>
    ensures { first_of (set_columns columns.now [] sets.now) ≡ said_by result }
{
    for (place, set) in sets.iter().enumerate() {
        judge_set_column(columns, &sets[..place], set)?;
    }
    Ok(())
}

#[tactic(auto, using(crate::proofs::FirstLemmas::first_steps))]
fn judge_set_column<'a>(
    columns: &[ColumnDef],
    earlier: &[SetText],
    set: &'a SetText,
) -> Result<(), Objection<'a>>
    ensures { first_of (used_name columns.now set.now.column
        ++ cause_if (list_any (λ earlier. is_same set.now.column earlier.column) earlier.now) (ColumnTwice set.now.column)
        ++ item_columns columns.now set.now.item) ≡ said_by result }
{
    judge_used(columns, &set.column)?;
    if is_set(&set.column, earlier) {
        return Err(Objection::ColumnTwice(&set.column));
    }
    judge_item_columns(columns, &set.item)
}

fn is_set(name: &Name, sets: &[SetText]) -> bool
    ensures { result ≡ list_any (λ set. is_same name.now set.column) sets.now }
{
    sets.iter().any(|set| is_same(name, &set.column))
}

#[tactic(auto, using(crate::proofs::FirstLemmas::first_steps))]
fn judge_item_columns<'a>(columns: &[ColumnDef], item: &'a SetItem) -> Result<(), Objection<'a>>
    ensures { first_of (item_columns columns.now item.now) ≡ said_by result }
{
    match item {
        SetItem::One(operand) => judge_operand(columns, operand),
        SetItem::Two(a, _, b) => {
            judge_operand(columns, a)?;
            judge_operand(columns, b)
        }
    }
}

/// Judges the types or the values that columns are set to.
pub fn judge_sets<'a>(
    alloc: Global,
    class: Class,
    columns: &'a [ColumnDef],
    sets: &[SetText],
) -> Result<(), Objection<'a>>
    ensures { first_of (flat_map (setting_causes class columns.now) sets.now) ≡ said_by result }
{
    for set in sets {
        judge_set(alloc, class, columns, set)?;
    }
    Ok(())
}

fn judge_set<'a>(
    alloc: Global,
    class: Class,
    columns: &'a [ColumnDef],
    set: &SetText,
) -> Result<(), Objection<'a>>
    ensures { first_of (setting_causes class columns.now set.now) ≡ said_by result }
{
    match column_named(columns, &set.column) {
        Some(target) => judge_target(alloc, class, columns, target, &set.item),
        None => Ok(()),
    }
}

fn judge_target<'a>(
    alloc: Global,
    class: Class,
    columns: &[ColumnDef],
    target: &'a ColumnDef,
    item: &SetItem,
) -> Result<(), Objection<'a>>
    ensures { first_of (target_causes class columns.now target.now item.now) ≡ said_by result }
{
    match class {
        Class::Columns => Ok(()),
        Class::Types if target.made.is_some() => Err(Objection::GivenGenerated(&target.name)),
        Class::Types => judge_types(alloc, columns, target, item),
        Class::Values => judge_values(alloc, target, item),
    }
}

fn judge_types<'a>(
    alloc: Global,
    columns: &[ColumnDef],
    target: &'a ColumnDef,
    item: &SetItem,
) -> Result<(), Objection<'a>>
    ensures { first_of (item_types columns.now target.now item.now) ≡ said_by result }
{
    match item {
        SetItem::One(Operand::Literal(literal)) => {
            judge_literal(alloc, Class::Types, &target.name, target.ty, literal)
        }
        SetItem::One(Operand::Column(name)) => {
            judge_kinds(&target.name, target, column_named(columns, name))
        }
        SetItem::Two(a, _, b) => {
            if is_number(target.ty) && counts(columns, a) && counts(columns, b) {
                Ok(())
            } else {
                Err(Objection::WrongType(&target.name))
            }
        }
    }
}

// Whether an operand is a number or a null. A column that isn't there was refused before.
fn counts(columns: &[ColumnDef], operand: &Operand) -> bool
    ensures { result ≡ counts columns.now operand.now }
{
    match operand {
        Operand::Column(name) => match column_named(columns, name) {
            Some(column) => is_number(column.ty),
            None => true,
        },
        Operand::Literal(Literal::Number { .. } | Literal::Null) => true,
        Operand::Literal(Literal::Text(_) | Literal::Date(_)) => false,
    }
}

#[tactic(auto, using(crate::proofs::FirstLemmas::first_steps))]
fn judge_values<'a>(
    alloc: Global,
    target: &'a ColumnDef,
    item: &SetItem,
) -> Result<(), Objection<'a>>
    ensures { first_of (item_values target.now item.now) ≡ said_by result }
{
    match item {
        SetItem::One(Operand::Literal(literal)) => {
            judge_literal(alloc, Class::Values, &target.name, target.ty, literal)
        }
        SetItem::One(Operand::Column(_)) => Ok(()),
        SetItem::Two(a, _, b) => {
            judge_wide(&target.name, a)?;
            judge_wide(&target.name, b)
        }
    }
}

fn judge_wide<'a>(name: &'a Name, operand: &Operand) -> Result<(), Objection<'a>>
    ensures { first_of (wide_number name.now operand.now) ≡ said_by result }
{
    match operand {
        Operand::Literal(Literal::Number { negative, size }) => {
            if is_wide(*negative, *size) {
                Ok(())
            } else {
                Err(Objection::OutOfRange(name))
            }
        }
        Operand::Literal(Literal::Null | Literal::Text(_) | Literal::Date(_))
        | Operand::Column(_) => Ok(()),
    }
}

// Whether a number lies in 64 bits.
fn is_wide(negative: bool, size: u64) -> bool
    ensures { result ≡ in_bigint (signed negative size) }
{
    let limit = if negative {
        9_223_372_036_854_775_808
    } else {
        9_223_372_036_854_775_807
    };
    size <= limit
}
