// Predicates by the places of columns.
ghost use Rattle.std.specs.Prelude.{◌≡◌, ◌≤◌, length, map, IfOk};
ghost use Rattle.mdc_ast.specs.declared.predicate.Pred.{Pred};
ghost use Rattle.mdc_ast.specs.declared.predicate.PredText.TheFolds.{fold-PredText};
ghost use Rattle.statement_meaning.specs.Binding as binding;
ghost use Rattle.statement_meaning.specs.Judging.{fit_compared, judged_value};

use crate::literals::value_compared;
use crate::names::{the_place, the_type};
use mdc_ast::{Atom, AtomText, ColumnDef, Operand, Pred, PredText, Right, Test, TestText};
use mdc_values::{Boxed, ColType, List, Literal, Memory, Value};
use std::alloc::Global;

/// A predicate, if there is one.
pub fn bound_where(
    alloc: Global,
    columns: &[ColumnDef],
    pred: &Option<PredText>,
) -> Result<Option<Pred>, Memory>
    requires { length columns.now ≤ 16 }
    ensures { IfOk result (λ bound. bound ≡ binding.bound_where columns.now pred.now) }
{
    match pred {
        Some(pred) => Ok(Some(bound_pred(alloc, columns, pred)?)),
        None => Ok(None),
    }
}

fn bound_pred(alloc: Global, columns: &[ColumnDef], pred: &PredText) -> Result<Pred, Memory>
    requires few { length columns.now ≤ 16 }
    ensures { IfOk result (λ bound. bound ≡ fold-PredText Pred (binding.bound_layer columns.now) pred.now) }
{
    match pred {
        PredText::Atom(atom) => Ok(Pred::Atom(bound_atom(alloc, columns, atom)?)),
        PredText::All(parts) => {
            let mut all = List::new(alloc);
            for part in parts.as_slice() {
                all.push(bound_pred(alloc, columns, part)?)?;
            }
            Ok(Pred::All(all))
        }
        PredText::Any(parts) => {
            let mut any = List::new(alloc);
            for part in parts.as_slice() {
                any.push(bound_pred(alloc, columns, part)?)?;
            }
            Ok(Pred::Any(any))
        }
        PredText::Not(part) => {
            let part = bound_pred(alloc, columns, part.get())?;
            Ok(Pred::Not(Boxed::new(alloc, part)?))
        }
    }
}

fn bound_atom(alloc: Global, columns: &[ColumnDef], atom: &AtomText) -> Result<Atom, Memory>
    requires { length columns.now ≤ 16 }
    ensures { IfOk result (λ bound. bound ≡ binding.bound_atom columns.now atom.now) }
{
    let ty = the_type(columns, &atom.column);
    Ok(Atom {
        column: the_place(columns, &atom.column),
        negated: atom.negated,
        test: bound_test(alloc, columns, ty, &atom.test)?,
    })
}

fn bound_test(
    alloc: Global,
    columns: &[ColumnDef],
    ty: ColType,
    test: &TestText,
) -> Result<Test, Memory>
    requires { length columns.now ≤ 16 }
    ensures { IfOk result (λ bound. bound ≡ binding.bound_test columns.now (λ literal. judged_value (fit_compared ty literal)) test.now) }
{
    match test {
        TestText::Compare(op, operand) => {
            Ok(Test::Compare(*op, bound_right(alloc, columns, ty, operand)?))
        }
        TestText::Between(low, high) => Ok(Test::Between(
            value_compared(alloc, ty, low)?,
            value_compared(alloc, ty, high)?,
        )),
        TestText::Within(literals) => {
            Ok(Test::Within(bound_values(alloc, ty, literals.as_slice())?))
        }
        TestText::IsNull => Ok(Test::IsNull),
    }
}

fn bound_right(
    alloc: Global,
    columns: &[ColumnDef],
    ty: ColType,
    operand: &Operand,
) -> Result<Right, Memory>
    requires { length columns.now ≤ 16 }
    ensures { IfOk result (λ bound. bound ≡ binding.bound_right columns.now (λ literal. judged_value (fit_compared ty literal)) operand.now) }
{
    match operand {
        Operand::Column(name) => Ok(Right::Column(the_place(columns, name))),
        Operand::Literal(literal) => Ok(Right::Value(value_compared(alloc, ty, literal)?)),
    }
}

fn bound_values(alloc: Global, ty: ColType, literals: &[Literal]) -> Result<List<Value>, Memory>
    ensures { IfOk result (λ values. values ≡ map (λ literal. judged_value (fit_compared ty literal)) literals.now) }
{
    let mut values = List::new(alloc);
    for literal in literals {
        values.push(value_compared(alloc, ty, literal)?)?;
    }
    Ok(values)
}
