// What is known of the rows of which a predicate is true.
ghost use Rattle.std.specs.Prelude.{◌≡◌, IfOk, OnOk};
ghost use Rattle.plan_chooser.specs.Covers as spec;

use crate::narrowing::narrow;
use crate::{ColumnSpan, Plan};
use mdc_values::{List, Memory};
use std::alloc::Global;

/// What is known of each row of which a predicate is true: its values lie in spans, one span for each column and source, and plans
/// have it. Where neither is there, nothing is known.
#[derive(Debug, Drop)]
pub struct Cover {
    pub spans: List<ColumnSpan>,
    pub plans: List<Plan>,
}

impl Cover {
    /// The cover that knows nothing. It takes no memory.
    pub(crate) fn nothing(alloc: Global) -> Cover
        ensures { result ≡ spec.no_cover }
    {
        Cover {
            spans: List::new(alloc),
            plans: List::new(alloc),
        }
    }

    /// A column's values lie in a span.
    pub(crate) fn in_span(alloc: Global, span: ColumnSpan) -> Result<Cover, Memory>
        ensures { IfOk result (λ cover. cover ≡ spec.span_cover span) }
    {
        let mut cover = Cover::nothing(alloc);
        cover.spans.push(span)?;
        Ok(cover)
    }

    /// A plan has the row.
    pub(crate) fn of_plan(alloc: Global, plan: Plan) -> Result<Cover, Memory>
        ensures { IfOk result (λ cover. cover ≡ spec.plan_cover plan) }
    {
        let mut cover = Cover::nothing(alloc);
        cover.plans.push(plan)?;
        Ok(cover)
    }

    /// Whether nothing is known.
    pub(crate) fn tells_nothing(&self) -> bool
        ensures { result ≡ spec.tells_nothing self.now }
    {
        self.spans.len() == 0 && self.plans.len() == 0
    }

    /// Takes what another cover knows besides. After `Memory` the cover isn't what either was.
    pub(crate) fn add(&mut self, more: Cover) -> Result<(), Memory>
        ensures { OnOk result (self.new ≡ spec.both_covers self.old more) }
    {
        for span in more.spans.into_vec() {
            narrow(&mut self.spans, span)?;
        }
        for plan in more.plans.into_vec() {
            self.plans.push(plan)?;
        }
        Ok(())
    }
}
