// Covers of tests of a column.
ghost use Rattle.std.specs.Prelude.{◌≡◌, ◌<◌, length, IfOk};
ghost use Rattle.mdc_ast.specs.declared.predicate.Test.TheVariants as column_test;
ghost use Rattle.plan_chooser.specs.Rule as spec;

use crate::joining::joined;
use crate::sources::source_of;
use crate::spans::{null_span, spans_of};
use crate::{ColumnSpan, Cover, Source};
use mdc_ast::{Atom, PlanMode, Right, Span, TableDef, Test};
use mdc_values::{List, Memory, Op, Value};
use predicate::op_if;
use std::alloc::Global;

/// The cover of a test with its own NOT, or of its negation.
pub(crate) fn atom_cover(
    alloc: Global,
    def: &TableDef,
    mode: PlanMode,
    negated: bool,
    atom: &Atom,
) -> Result<Cover, Memory>
    requires dims { length def.now.dims < 256 }
    requires indexes { length def.now.indexes < 256 }
    ensures { IfOk result (λ cover. cover ≡ spec.atom_cover def.now mode negated atom.now) }
{
    let negated = if negated { !atom.negated } else { atom.negated };
    match &atom.test {
        Test::Compare(op, Right::Value(value)) => {
            comparison_cover(alloc, def, mode, atom.column, op_if(negated, *op), value)
        }
        Test::Compare(_, Right::Column(_)) => Ok(Cover::nothing(alloc)),
        Test::Between(low, high) => {
            between_cover(alloc, def, mode, atom.column, negated, low, high)
        }
        Test::Within(values) => {
            within_cover(alloc, def, mode, atom.column, negated, values.as_slice())
        }
        Test::IsNull => null_cover(alloc, def, mode, atom.column, negated),
    }
}

fn between_cover(
    alloc: Global,
    def: &TableDef,
    mode: PlanMode,
    column: u8,
    negated: bool,
    low: &Value,
    high: &Value,
) -> Result<Cover, Memory>
    requires dims { length def.now.dims < 256 }
    requires indexes { length def.now.indexes < 256 }
    ensures { IfOk result (λ cover. cover ≡ spec.test_cover def.now mode column negated (column_test.Between low.now high.now)) }
{
    let mut covers = List::new(alloc);
    let from = op_if(negated, Op::AtLeast);
    covers.push(comparison_cover(alloc, def, mode, column, from, low)?)?;
    let to = op_if(negated, Op::AtMost);
    covers.push(comparison_cover(alloc, def, mode, column, to, high)?)?;
    joined(alloc, !negated, covers)
}

fn within_cover(
    alloc: Global,
    def: &TableDef,
    mode: PlanMode,
    column: u8,
    negated: bool,
    values: &[Value],
) -> Result<Cover, Memory>
    requires dims { length def.now.dims < 256 }
    requires indexes { length def.now.indexes < 256 }
    ensures { IfOk result (λ cover. cover ≡ spec.test_cover def.now mode column negated (column_test.Within values.now)) }
{
    let op = op_if(negated, Op::Equal);
    let mut covers = List::new(alloc);
    for value in values {
        covers.push(comparison_cover(alloc, def, mode, column, op, value)?)?;
    }
    joined(alloc, negated, covers)
}

fn null_cover(
    alloc: Global,
    def: &TableDef,
    mode: PlanMode,
    column: u8,
    negated: bool,
) -> Result<Cover, Memory>
    requires dims { length def.now.dims < 256 }
    requires indexes { length def.now.indexes < 256 }
    ensures { IfOk result (λ cover. cover ≡ spec.test_cover def.now mode column negated column_test.IsNull) }
{
    let mut spans = List::new(alloc);
    spans.push(null_span(negated))?;
    spans_cover(alloc, source_of(def, mode, false, column), column, spans)
}

/// The cover of a comparison with a value.
fn comparison_cover(
    alloc: Global,
    def: &TableDef,
    mode: PlanMode,
    column: u8,
    op: Op,
    value: &Value,
) -> Result<Cover, Memory>
    requires dims { length def.now.dims < 256 }
    requires indexes { length def.now.indexes < 256 }
    ensures { IfOk result (λ cover. cover ≡ spec.comparison_cover def.now mode column op value.now) }
{
    let source = source_of(def, mode, is_unequal(op), column);
    let spans = spans_of(alloc, op, value)?;
    spans_cover(alloc, source, column, spans)
}

/// A column's values lie in one of the spans, which a source lists. Nothing is known where none does.
fn spans_cover(
    alloc: Global,
    source: Option<Source>,
    column: u8,
    spans: List<Span>,
) -> Result<Cover, Memory>
    ensures { IfOk result (λ cover. cover ≡ spec.spans_cover source column spans) }
{
    let Some(source) = source else {
        return Ok(Cover::nothing(alloc));
    };
    let mut covers = List::new(alloc);
    for span in spans.into_vec() {
        let one = ColumnSpan {
            source,
            column,
            span,
        };
        covers.push(Cover::in_span(alloc, one)?)?;
    }
    joined(alloc, false, covers)
}

fn is_unequal(op: Op) -> bool
    ensures { result ≡ spec.is_unequal op }
{
    match op {
        Op::Unequal => true,
        Op::Equal | Op::Less | Op::AtMost | Op::Greater | Op::AtLeast => false,
    }
}
