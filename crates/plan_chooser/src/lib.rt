//! Plans: where the rows are looked for of which a predicate may be true.
//!
//! It promises that the plan of a predicate in each mode is the one of the plan rule, in which the spans of one column under an AND
//! are one span; that such a plan has each row of which the predicate is true; that where it goes by cells alone, the predicate may
//! hold in the cell of each row that it has; and that it asks dimensions and record indexes that are there for spans of their
//! columns' kinds. It stands on `cell_filter` for what may hold in a cell, on `key_codec` for what lies in a span, and on
//! `row_groups`, whose lemmas say that the order of values is total.
#![tactic(auto)]

mod choosing;
mod column_span;
mod cover;
mod joining;
mod laws;
mod narrowing;
mod plan;
mod sources;
mod spans;
mod testing;
mod word;

pub use choosing::choose;
pub use column_span::ColumnSpan;
pub use cover::Cover;
pub use laws::{
    chosen_plans_cover, chosen_plans_may_be_asked, chosen_plans_stay_in_cells,
    judged_predicates_have_kinds,
};
pub use plan::{Plan, Source};
pub use word::{PlanWord, word_of};
