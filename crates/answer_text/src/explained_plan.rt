// The lines of EXPLAIN.
ghost use Rattle.std.specs.Prelude.{◌≡◌, IfOk};
ghost use Rattle.answer_text.specs.ExplainedPlan as spec;

use crate::appending::{append, append_count};
use mdc_values::{Chars, Memory};
use std::alloc::Global;

/// The lines that tell the word of the plan by which rows were found, how many blocks it fetched, and how many rows qualify.
pub fn explain_text(alloc: Global, plan: &[u8], blocks: u64, rows: u64) -> Result<Chars, Memory>
    ensures { IfOk result (λ lines. lines ≡ spec.explain_text plan.now blocks rows) }
{
    let mut lines = Vec::new(alloc);
    append(b"PLAN ", &mut lines)?;
    append(plan, &mut lines)?;
    append(b"\nBLOCKS ", &mut lines)?;
    append_count(blocks, b"\nROWS ", &mut lines)?;
    append_count(rows, b"\n", &mut lines)?;
    Ok(Chars::from_vec(lines))
}
