// The tuples of an INSERT: what is said against them.
ghost use Rattle.std.specs.Prelude.{◌≡◌, [], flat_map};
ghost use Rattle.mdc_ast.specs.Definitions as definitions;
ghost use Rattle.statement_meaning.specs.Judged.{each_item, given_to, given_value, insert_judged};
ghost use Rattle.statement_meaning.specs.Judging.{in_order, listed_names, of_some};
ghost use Rattle.binder.specs.Classes.{item_causes, target_names, tuple_causes};
ghost use Rattle.binder.specs.Saying.{first_of, said_by};

use crate::literals::{Class, judge_literal};
use crate::names::{column_named, has_column, is_same};
use crate::objection::Objection;
use crate::targets::Targets;
use mdc_ast::{ColumnDef, InsertItem, Name};
use mdc_values::List;
use std::alloc::Global;

/// Judges the tuples of an INSERT.
#[tactic(auto, using(crate::proofs::FirstLemmas::first_steps))]
pub fn judge_insertion<'a>(
    alloc: Global,
    columns: &'a [ColumnDef],
    listed: &'a Option<List<Name>>,
    tuples: &[List<InsertItem>],
) -> Result<(), Objection<'a>>
    ensures { first_of (in_order (insert_judged listed.now tuples.now columns.now)) ≡ said_by result }
{
    judge_listed(columns, listed)?;
    let targets = Targets::of(columns, listed);
    judge_tuples(alloc, Class::Types, columns, targets, tuples)?;
    judge_tuples(alloc, Class::Values, columns, targets, tuples)
}

fn judge_listed<'a>(
    columns: &'a [ColumnDef],
    listed: &'a Option<List<Name>>,
) -> Result<(), Objection<'a>>
    ensures { first_of (of_some listed.now (listed_names (definitions.column_names columns.now) [])) ≡ said_by result }
{
    match listed {
        Some(names) => judge_names(columns, names.as_slice()),
        None => Ok(()),
    }
}

// No more names than there are columns stand before the first that isn't a column or stands twice.
fn judge_names<'a>(columns: &[ColumnDef], names: &'a [Name]) -> Result<(), Objection<'a>>
    ensures { first_of (listed_names (definitions.column_names columns.now) [] names.now) ≡ said_by result }
{
    for (place, name) in names.iter().enumerate() {
        if !has_column(columns, name) {
            return Err(Objection::NoColumn(name));
        }
        if is_among(name, &names[..place]) {
            return Err(Objection::ColumnTwice(name));
        }
    }
    Ok(())
}

fn is_among(name: &Name, names: &[Name]) -> bool
    ensures { result ≡ definitions.is_among name.now names.now }
{
    names.iter().any(|other| is_same(name, other))
}

fn judge_tuples<'a>(
    alloc: Global,
    class: Class,
    columns: &'a [ColumnDef],
    targets: Targets<'a>,
    tuples: &[List<InsertItem>],
) -> Result<(), Objection<'a>>
    ensures { first_of (flat_map (tuple_causes class columns.now (target_names targets.entry)) tuples.now) ≡ said_by result }
{
    for tuple in tuples {
        judge_tuple(alloc, class, columns, targets, tuple.as_slice())?;
    }
    Ok(())
}

fn judge_tuple<'a>(
    alloc: Global,
    class: Class,
    columns: &'a [ColumnDef],
    targets: Targets<'a>,
    items: &[InsertItem],
) -> Result<(), Objection<'a>>
    ensures { first_of (tuple_causes class columns.now (target_names targets.entry) items.now) ≡ said_by result }
{
    match class {
        Class::Columns => Ok(()),
        Class::Types if items.len() != targets.len() => Err(Objection::WrongCount),
        Class::Types => judge_items(alloc, Class::Types, columns, targets, items),
        Class::Values => judge_items(alloc, Class::Values, columns, targets, items),
    }
}

fn judge_items<'a>(
    alloc: Global,
    class: Class,
    columns: &'a [ColumnDef],
    targets: Targets<'a>,
    items: &[InsertItem],
) -> Result<(), Objection<'a>>
    ensures { first_of (each_item columns.now (item_causes class) (target_names targets.entry) items.now) ≡ said_by result }
{
    for place in 0..items.len().min(targets.len()) {
        judge_target(alloc, class, columns, targets.at(place), &items[place])?;
    }
    Ok(())
}

fn judge_target<'a>(
    alloc: Global,
    class: Class,
    columns: &'a [ColumnDef],
    name: &Name,
    item: &InsertItem,
) -> Result<(), Objection<'a>>
    ensures { first_of (of_some (definitions.column_named columns.now name.now) (λ column. item_causes class column item.now)) ≡ said_by result }
{
    match column_named(columns, name) {
        Some(column) => judge_item(alloc, class, column, item),
        None => Ok(()),
    }
}

fn judge_item<'a>(
    alloc: Global,
    class: Class,
    column: &'a ColumnDef,
    item: &InsertItem,
) -> Result<(), Objection<'a>>
    ensures { first_of (item_causes class column.now item.now) ≡ said_by result }
{
    match class {
        Class::Columns => Ok(()),
        Class::Types => judge_given(alloc, column, item),
        Class::Values => judge_value(alloc, column, item),
    }
}

fn judge_given<'a>(
    alloc: Global,
    column: &'a ColumnDef,
    item: &InsertItem,
) -> Result<(), Objection<'a>>
    ensures { first_of (given_to column.now item.now) ≡ said_by result }
{
    match item {
        InsertItem::Literal(_) if column.made.is_some() => {
            Err(Objection::GivenGenerated(&column.name))
        }
        InsertItem::Literal(literal) => {
            judge_literal(alloc, Class::Types, &column.name, column.ty, literal)
        }
        InsertItem::Default => Ok(()),
    }
}

fn judge_value<'a>(
    alloc: Global,
    column: &'a ColumnDef,
    item: &InsertItem,
) -> Result<(), Objection<'a>>
    ensures { first_of (given_value column.now item.now) ≡ said_by result }
{
    match item {
        InsertItem::Literal(literal) => {
            judge_literal(alloc, Class::Values, &column.name, column.ty, literal)
        }
        InsertItem::Default => Ok(()),
    }
}
