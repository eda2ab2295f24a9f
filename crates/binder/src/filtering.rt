// Predicates: what is said against them.
ghost use Rattle.std.specs.Prelude.{◌≡◌, ◌++◌, flat_map, Some};
ghost use Rattle.std.specs.Option.{option_copied};
ghost use Rattle.mdc_ast.specs.Definitions as definitions;
ghost use Rattle.statement_meaning.specs.Judging.{atom_columns, atoms_of, fit_compared, kinds_meet, of_some, operand_columns};
ghost use Rattle.binder.specs.Classes.{atom_causes, column_causes, literal_causes};
ghost use Rattle.binder.specs.Saying.{first_of, said_by};

use crate::kinds::are_alike;
use crate::literals::{Class, judge_compared};
use crate::names::{column_named, judge_used};
use crate::objection::Objection;
use mdc_ast::{AtomText, ColumnDef, Name, Operand, PredText, TestText};
use mdc_values::{ColType, Literal};
use std::alloc::Global;

/// Judges a predicate, if there is one.
pub fn judge_where<'a>(
    alloc: Global,
    class: Class,
    columns: &[ColumnDef],
    pred: &'a Option<PredText>,
) -> Result<(), Objection<'a>>
    ensures { first_of (flat_map (atom_causes class columns.now) (atoms_of pred.now)) ≡ said_by result }
{
    match pred {
        Some(pred) => judge_pred(alloc, class, columns, pred),
        None => Ok(()),
    }
}

// A predicate is judged atom by atom, in the order of the text.
fn judge_pred<'a>(
    alloc: Global,
    class: Class,
    columns: &[ColumnDef],
    pred: &'a PredText,
) -> Result<(), Objection<'a>>
    ensures { first_of (flat_map (atom_causes class columns.now) (atoms_of (Some pred.now))) ≡ said_by result }
{
    match pred {
        PredText::Atom(atom) => judge_atom(alloc, class, columns, atom),
        PredText::All(parts) => {
            for part in parts.as_slice() {
                judge_pred(alloc, class, columns, part)?;
            }
            Ok(())
        }
        PredText::Any(parts) => {
            for part in parts.as_slice() {
                judge_pred(alloc, class, columns, part)?;
            }
            Ok(())
        }
        PredText::Not(part) => judge_pred(alloc, class, columns, part.get()),
    }
}

fn judge_atom<'a>(
    alloc: Global,
    class: Class,
    columns: &[ColumnDef],
    atom: &'a AtomText,
) -> Result<(), Objection<'a>>
    ensures { first_of (atom_causes class columns.now atom.now) ≡ said_by result }
{
    match class {
        Class::Columns => judge_columns(columns, atom),
        Class::Types | Class::Values => match column_named(columns, &atom.column) {
            Some(column) => judge_test(alloc, class, columns, column, atom),
            None => Ok(()),
        },
    }
}

#[tactic(auto, using(crate::proofs::FirstLemmas::first_steps))]
fn judge_columns<'a>(columns: &[ColumnDef], atom: &'a AtomText) -> Result<(), Objection<'a>>
    ensures { first_of (atom_columns columns.now atom.now) ≡ said_by result }
{
    judge_used(columns, &atom.column)?;
    match &atom.test {
        TestText::Compare(_, operand) => judge_operand(columns, operand),
        TestText::Between(_, _) | TestText::Within(_) | TestText::IsNull => Ok(()),
    }
}

/// Judges a column that is compared or computed with.
pub fn judge_operand<'a>(columns: &[ColumnDef], operand: &'a Operand) -> Result<(), Objection<'a>>
    ensures { first_of (operand_columns columns.now operand.now) ≡ said_by result }
{
    match operand {
        Operand::Column(name) => judge_used(columns, name),
        Operand::Literal(_) => Ok(()),
    }
}

fn judge_test<'a>(
    alloc: Global,
    class: Class,
    columns: &[ColumnDef],
    column: &ColumnDef,
    atom: &'a AtomText,
) -> Result<(), Objection<'a>>
    ensures { first_of (column_causes class columns.now atom.now column.now) ≡ said_by result }
{
    match &atom.test {
        TestText::Compare(_, Operand::Column(name)) => match class {
            Class::Types => judge_kinds(&atom.column, column, column_named(columns, name)),
            Class::Columns | Class::Values => Ok(()),
        },
        TestText::Compare(_, Operand::Literal(literal)) => {
            judge_compared(alloc, class, &atom.column, column.ty, literal)
        }
        TestText::Between(low, high) => {
            judge_range(alloc, class, &atom.column, column.ty, low, high)
        }
        TestText::Within(literals) => {
            judge_literals(alloc, class, &atom.column, column.ty, literals.as_slice())
        }
        TestText::IsNull => Ok(()),
    }
}

/// Judges two columns that are compared, or of which one is copied. A column that isn't there was refused before.
pub fn judge_kinds<'a>(
    name: &'a Name,
    column: &ColumnDef,
    other: Option<&ColumnDef>,
) -> Result<(), Objection<'a>>
    ensures { first_of (of_some (option_copied other.entry) (kinds_meet name.now column.now)) ≡ said_by result }
{
    match other {
        Some(other) => {
            if are_alike(column.ty, other.ty) {
                Ok(())
            } else {
                Err(Objection::WrongType(name))
            }
        }
        None => Ok(()),
    }
}

#[tactic(auto, using(crate::proofs::FirstLemmas::first_steps))]
fn judge_range<'a>(
    alloc: Global,
    class: Class,
    name: &'a Name,
    ty: ColType,
    low: &Literal,
    high: &Literal,
) -> Result<(), Objection<'a>>
    ensures { first_of (literal_causes class name.now (fit_compared ty low.now)
        ++ literal_causes class name.now (fit_compared ty high.now)) ≡ said_by result }
{
    judge_compared(alloc, class, name, ty, low)?;
    judge_compared(alloc, class, name, ty, high)
}

fn judge_literals<'a>(
    alloc: Global,
    class: Class,
    name: &'a Name,
    ty: ColType,
    literals: &[Literal],
) -> Result<(), Objection<'a>>
    ensures { first_of (flat_map (λ literal. literal_causes class name.now (fit_compared ty literal)) literals.now) ≡ said_by result }
{
    for literal in literals {
        judge_compared(alloc, class, name, ty, literal)?;
    }
    Ok(())
}
