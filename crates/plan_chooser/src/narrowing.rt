// Spans of one column under an AND as one span.
ghost use Rattle.std.specs.Prelude.{◌≡◌, OnOk};
ghost use Rattle.plan_chooser.specs.Narrowing as spec;

use crate::{ColumnSpan, Source};
use mdc_ast::{Cut, Span};
use mdc_values::{List, Memory};
use row_groups::sql_order;

/// Puts a span beside others of which all hold. One of the same column and source becomes what lies in both.
pub(crate) fn narrow(spans: &mut List<ColumnSpan>, more: ColumnSpan) -> Result<(), Memory>
    ensures { OnOk result (spans.new ≡ spec.with_span more spans.old) }
{
    for i in 0..spans.len() {
        if is_beside(spans.at(i), &more) {
            let one = spans.remove(i);
            return spans.push(narrowed(one, more.span));
        }
    }
    spans.push(more)
}

/// Whether two spans are of one column and source.
fn is_beside(a: &ColumnSpan, b: &ColumnSpan) -> bool
    ensures { result ≡ spec.is_beside a.now b.now }
{
    is_same_source(a.source, b.source) && a.column == b.column
}

fn is_same_source(a: Source, b: Source) -> bool
    ensures { result ≡ spec.is_same_source a b }
{
    match (a, b) {
        (Source::Dimension(a), Source::Dimension(b)) => a == b,
        (Source::Index(a), Source::Index(b)) => a == b,
        _ => false,
    }
}

/// What lies in both spans of a column.
fn narrowed(one: ColumnSpan, span: Span) -> ColumnSpan
    ensures { result ≡ spec.narrowed one span }
{
    ColumnSpan {
        source: one.source,
        column: one.column,
        span: Span {
            low: higher(one.span.low, span.low),
            high: lower(one.span.high, span.high),
        },
    }
}

fn higher(a: Cut, b: Cut) -> Cut
    ensures { result ≡ spec.higher a b }
{
    if is_below(&a, &b) { b } else { a }
}

fn lower(a: Cut, b: Cut) -> Cut
    ensures { result ≡ spec.lower a b }
{
    if is_below(&a, &b) { a } else { b }
}

/// Whether a cut lies below another one: some value may lie between them.
fn is_below(a: &Cut, b: &Cut) -> bool
    ensures { result ≡ spec.is_below a.now b.now }
{
    match (a, b) {
        (Cut::Last, _) | (_, Cut::First) => false,
        (Cut::First, _) | (_, Cut::Last) => true,
        (Cut::Before(a), Cut::Before(b)) => sql_order(a, b).is_lt(),
        (Cut::Before(a), Cut::After(b)) => sql_order(a, b).is_le(),
        (Cut::After(a), Cut::Before(b)) => sql_order(a, b).is_lt(),
        (Cut::After(a), Cut::After(b)) => sql_order(a, b).is_lt(),
    }
}
