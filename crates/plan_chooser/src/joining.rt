// Covers of parts joined by AND or by OR, and the plan of a cover.
ghost use Rattle.std.specs.Prelude.{◌≡◌, IfOk};
ghost use Rattle.plan_chooser.specs.Covers as spec;

use crate::{ColumnSpan, Cover, Plan, Source};
use mdc_values::{List, Memory};
use std::alloc::Global;

/// The cover of parts that are joined by AND or by OR.
pub(crate) fn joined(alloc: Global, by_and: bool, covers: List<Cover>) -> Result<Cover, Memory>
    ensures { IfOk result (λ cover. cover ≡ spec.joined by_and covers) }
{
    if by_and {
        all_of(alloc, covers)
    } else {
        any_of(alloc, covers)
    }
}

/// What all of them know.
fn all_of(alloc: Global, covers: List<Cover>) -> Result<Cover, Memory>
    ensures { IfOk result (λ cover. cover ≡ spec.all_covers spec.no_cover covers) }
{
    let mut known = Cover::nothing(alloc);
    for cover in covers.into_vec() {
        known.add(cover)?;
    }
    Ok(known)
}

/// What is known where one of them holds, whichever it is.
fn any_of(alloc: Global, mut covers: List<Cover>) -> Result<Cover, Memory>
    ensures { IfOk result (λ cover. cover ≡ spec.any_covers covers) }
{
    if covers.len() == 1 {
        return Ok(covers.remove(0));
    }
    let mut parts = List::new(alloc);
    for cover in covers.into_vec() {
        if cover.tells_nothing() {
            return Ok(Cover::nothing(alloc));
        }
        parts.push(plan_of_cover(alloc, cover)?)?;
    }
    Cover::of_plan(alloc, Plan::Any(parts))
}

/// The rows of which that may be known.
pub(crate) fn plan_of_cover(alloc: Global, cover: Cover) -> Result<Plan, Memory>
    ensures { IfOk result (λ plan. plan ≡ spec.plan_of_cover cover) }
{
    let mut parts = List::new(alloc);
    for span in cover.spans.into_vec() {
        parts.push(leaf(span))?;
    }
    for plan in cover.plans.into_vec() {
        parts.push(plan)?;
    }
    Ok(plan_of_parts(parts))
}

/// The rows that each part has: one part is that one, and no part has all rows.
fn plan_of_parts(mut parts: List<Plan>) -> Plan
    ensures { result ≡ spec.plan_of_parts parts }
{
    if parts.len() == 0 {
        return Plan::Scan;
    }
    if parts.len() == 1 {
        return parts.remove(0);
    }
    Plan::All(parts)
}

/// The rows with a value of a span.
fn leaf(span: ColumnSpan) -> Plan
    ensures { result ≡ spec.leaf span }
{
    match span.source {
        Source::Dimension(dim) => Plan::Blocks(dim, span.column, span.span),
        Source::Index(index) => Plan::Rids(index, span.span),
    }
}
