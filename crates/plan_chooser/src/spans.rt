// The spans of values of which a comparison is true.
ghost use Rattle.std.specs.Prelude.{◌≡◌, IfOk};
ghost use Rattle.mdc_ast.specs.Database.{is_null};
ghost use Rattle.plan_chooser.specs.Spans as spec;

use mdc_ast::{Cut, Span};
use mdc_values::{List, Memory, Op, Value};
use std::alloc::Global;

/// The spans of a comparison with a value.
pub(crate) fn spans_of(alloc: Global, op: Op, value: &Value) -> Result<List<Span>, Memory>
    ensures { IfOk result (λ spans. spans ≡ spec.spans_of op value.now) }
{
    let mut spans = List::new(alloc);
    if is_null(value) {
        spans.push(span(Cut::Last, Cut::First))?;
        return Ok(spans);
    }
    match op {
        Op::Equal => spans.push(span(before(alloc, value)?, after(alloc, value)?))?,
        Op::Unequal => {
            spans.push(span(Cut::First, before(alloc, value)?))?;
            spans.push(span(after(alloc, value)?, Cut::Before(Value::Null)))?;
        }
        Op::Less => spans.push(span(Cut::First, before(alloc, value)?))?,
        Op::AtMost => spans.push(span(Cut::First, after(alloc, value)?))?,
        Op::Greater => spans.push(span(after(alloc, value)?, Cut::Before(Value::Null)))?,
        Op::AtLeast => spans.push(span(before(alloc, value)?, Cut::Before(Value::Null)))?,
    }
    Ok(spans)
}

/// The span of nulls, or of what isn't one.
pub(crate) fn null_span(negated: bool) -> Span
    ensures { result ≡ spec.null_span negated }
{
    if negated {
        span(Cut::First, Cut::Before(Value::Null))
    } else {
        span(Cut::Before(Value::Null), Cut::Last)
    }
}

fn span(low: Cut, high: Cut) -> Span
    ensures { result ≡ spec.span_between low high }
{
    Span { low, high }
}

fn before(alloc: Global, value: &Value) -> Result<Cut, Memory>
    ensures { IfOk result (λ cut. cut ≡ Cut.Before value.now) }
{
    Ok(Cut::Before(value.copy(alloc)?))
}

fn after(alloc: Global, value: &Value) -> Result<Cut, Memory>
    ensures { IfOk result (λ cut. cut ≡ Cut.After value.now) }
{
    Ok(Cut::After(value.copy(alloc)?))
}

fn is_null(value: &Value) -> bool
    ensures { result ≡ is_null value.now }
{
    matches!(value, Value::Null)
}
