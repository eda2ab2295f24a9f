// What is said against a query, but for its predicate.
ghost use Rattle.std.specs.Prelude.{◌≡◌, ◌++◌, flat_map};
ghost use Rattle.std.specs.List.{list_any};
ghost use Rattle.mdc_ast.specs.Definitions as definitions;
ghost use Rattle.statement_meaning.specs.Judged as judged;
ghost use Rattle.statement_meaning.specs.Judging.{used_name};
ghost use Rattle.binder.specs.Knowing.{Knows};
ghost use Rattle.binder.specs.Saying.{first_of, said_by};

use crate::kinds::is_number;
use crate::known_names::KnownNames;
use crate::names::{column_named, judge_used};
use crate::objection::Objection;
use mdc_ast::{ColumnDef, KeyText, Name, Out, OutList, Select};

/// Judges the columns that a query shows.
pub fn judge_shown<'a>(columns: &[ColumnDef], list: &'a OutList) -> Result<(), Objection<'a>>
    ensures { first_of (judged.shown_columns columns.now list.now) ≡ said_by result }
{
    match list {
        OutList::Star => Ok(()),
        OutList::Outs(outs) => judge_outs(columns, outs.as_slice()),
    }
}

fn judge_outs<'a>(columns: &[ColumnDef], outs: &'a [Out]) -> Result<(), Objection<'a>>
    ensures { first_of (flat_map (λ out. flat_map (used_name columns.now) (judged.names_in out)) outs.now) ≡ said_by result }
{
    for out in outs {
        judge_out(columns, out)?;
    }
    Ok(())
}

fn judge_out<'a>(columns: &[ColumnDef], out: &'a Out) -> Result<(), Objection<'a>>
    ensures { first_of (flat_map (used_name columns.now) (judged.names_in out.now)) ≡ said_by result }
{
    match out {
        Out::CountAll => Ok(()),
        Out::Column(name) | Out::Count(name) | Out::Sum(name) | Out::Min(name) | Out::Max(name) =>
            judge_used(columns, name),
    }
}

/// Judges the columns of GROUP BY and ORDER BY.
#[tactic(auto, using(crate::proofs::FirstLemmas::first_steps))]
pub fn judge_tail_columns<'a>(
    columns: &[ColumnDef],
    select: &'a Select,
) -> Result<(), Objection<'a>>
    ensures { first_of (flat_map (used_name columns.now) select.now.group ++ flat_map (λ key. used_name columns.now key.column) select.now.order) ≡ said_by result }
{
    judge_group_columns(columns, select.group.as_slice())?;
    judge_order_columns(columns, select.order.as_slice())
}

fn judge_group_columns<'a>(columns: &[ColumnDef], group: &'a [Name]) -> Result<(), Objection<'a>>
    ensures { first_of (flat_map (used_name columns.now) group.now) ≡ said_by result }
{
    for name in group {
        judge_used(columns, name)?;
    }
    Ok(())
}

fn judge_order_columns<'a>(columns: &[ColumnDef], order: &'a [KeyText]) -> Result<(), Objection<'a>>
    ensures { first_of (flat_map (λ key. used_name columns.now key.column) order.now) ≡ said_by result }
{
    for key in order {
        judge_used(columns, &key.column)?;
    }
    Ok(())
}

/// Whether rows share lines, as under GROUP BY and with aggregates.
pub fn shares_lines(select: &Select) -> bool
    ensures { result ≡ judged.shares_lines select.now }
{
    has_aggregate(&select.list) || !select.group.as_slice().is_empty()
}

fn has_aggregate(list: &OutList) -> bool
    ensures { result ≡ judged.has_aggregate list.now }
{
    match list {
        OutList::Star => false,
        OutList::Outs(outs) => is_any_aggregate(outs.as_slice()),
    }
}

fn is_any_aggregate(outs: &[Out]) -> bool
    ensures { result ≡ list_any judged.is_aggregate outs.now }
{
    outs.iter().any(|out| is_aggregate(out))
}

fn is_aggregate(out: &Out) -> bool
    ensures { result ≡ judged.is_aggregate out.now }
{
    !matches!(out, Out::Column(_))
}

/// Judges the types of what a query shows, where these are the columns of its GROUP BY.
pub fn judge_shown_types<'a>(
    columns: &'a [ColumnDef],
    group: &KnownNames<'_>,
    select: &'a Select,
) -> Result<(), Objection<'a>>
    requires { Knows group.now select.now.group }
    ensures { first_of (judged.shown_types columns.now (judged.shares_lines select.now) select.now.group select.now.list) ≡ said_by result }
{
    let shares = shares_lines(select);
    match &select.list {
        OutList::Star => judge_all_grouped(columns, shares, group, select.group.as_slice()),
        OutList::Outs(outs) => {
            judge_out_types(
                columns,
                shares,
                group,
                select.group.as_slice(),
                outs.as_slice(),
            )
        }
    }
}

fn judge_all_grouped<'a>(
    columns: &'a [ColumnDef],
    shares: bool,
    group: &KnownNames<'_>,
    _names: &[Name],
) -> Result<(), Objection<'a>>
    requires { Knows group.now _names.now }
    ensures { first_of (flat_map (judged.ungrouped shares _names.now) (definitions.column_names columns.now)) ≡ said_by result }
{
    for column in columns {
        judge_grouped(shares, group, _names, &column.name)?;
    }
    Ok(())
}

fn judge_out_types<'a>(
    columns: &[ColumnDef],
    shares: bool,
    group: &KnownNames<'_>,
    _names: &[Name],
    outs: &'a [Out],
) -> Result<(), Objection<'a>>
    requires { Knows group.now _names.now }
    ensures { first_of (flat_map (judged.out_types columns.now shares _names.now) outs.now) ≡ said_by result }
{
    for out in outs {
        judge_out_type(columns, shares, group, _names, out)?;
    }
    Ok(())
}

fn judge_out_type<'a>(
    columns: &[ColumnDef],
    shares: bool,
    group: &KnownNames<'_>,
    _names: &[Name],
    out: &'a Out,
) -> Result<(), Objection<'a>>
    requires { Knows group.now _names.now }
    ensures { first_of (judged.out_types columns.now shares _names.now out.now) ≡ said_by result }
{
    match out {
        Out::Column(name) => judge_grouped(shares, group, _names, name),
        Out::Sum(name) => judge_summed(columns, name),
        Out::CountAll | Out::Count(_) | Out::Min(_) | Out::Max(_) => Ok(()),
    }
}

// A column whose value the rows of a line share.
fn judge_grouped<'a>(
    shares: bool,
    group: &KnownNames<'_>,
    _names: &[Name],
    name: &'a Name,
) -> Result<(), Objection<'a>>
    requires { Knows group.now _names.now }
    ensures { first_of (judged.ungrouped shares _names.now name.now) ≡ said_by result }
{
    if shares && !group.has(name) {
        return Err(Objection::NotGrouped(name));
    }
    Ok(())
}

// A column that isn't there was refused before.
fn judge_summed<'a>(columns: &[ColumnDef], name: &'a Name) -> Result<(), Objection<'a>>
    ensures { first_of (judged.no_number columns.now name.now) ≡ said_by result }
{
    match column_named(columns, name) {
        Some(column) if !is_number(column.ty) => Err(Objection::WrongType(name)),
        _ => Ok(()),
    }
}

/// Judges the columns that the lines are ordered by.
pub fn judge_order<'a>(group: &KnownNames<'_>, select: &'a Select) -> Result<(), Objection<'a>>
    requires { Knows group.now select.now.group }
    ensures { first_of (flat_map (λ key. judged.ungrouped (judged.shares_lines select.now) select.now.group key.column) select.now.order) ≡ said_by result }
{
    let shares = shares_lines(select);
    for key in select.order.as_slice() {
        judge_grouped(shares, group, select.group.as_slice(), &key.column)?;
    }
    Ok(())
}

/// Judges the number of FETCH FIRST.
pub fn judge_fetch<'a>(first: Option<u64>) -> Result<(), Objection<'a>>
    ensures { first_of (judged.fetch_value first) ≡ said_by result }
{
    match first {
        Some(count) if !(1..=2_147_483_647).contains(&count) => Err(Objection::FetchOutOfRange),
        _ => Ok(()),
    }
}
