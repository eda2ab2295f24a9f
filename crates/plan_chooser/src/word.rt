// The word of a plan.
ghost use Rattle.std.specs.Prelude.{◌≡◌};
ghost use Rattle.plan_chooser.specs.Words as spec;

use crate::Plan;

/// What a plan asks: `Scan` all rows, `Block` dimensions alone, `Record` record indexes alone, and `Mixed` both.
#[derive(Clone, Copy, Debug, PartialEq, Eq)]
pub enum PlanWord {
    Scan,
    Block,
    Record,
    Mixed,
}

impl PlanWord {
    /// The word as EXPLAIN says it.
    pub fn text(self) -> &'static [u8]
        ensures { result.now ≡ spec.word_text self }
    {
        match self {
            PlanWord::Scan => b"SCAN",
            PlanWord::Block => b"BLOCK",
            PlanWord::Record => b"RECORD",
            PlanWord::Mixed => b"MIXED",
        }
    }
}

/// The word of a plan.
pub fn word_of(plan: &Plan) -> PlanWord
    ensures { result ≡ spec.word_of plan.now }
{
    if has_part(plan, PlanWord::Scan) {
        return PlanWord::Scan;
    }
    if !has_part(plan, PlanWord::Record) {
        return PlanWord::Block;
    }
    if has_part(plan, PlanWord::Block) {
        return PlanWord::Mixed;
    }
    PlanWord::Record
}

/// Whether something in a plan has a word.
fn has_part(plan: &Plan, word: PlanWord) -> bool
    ensures { result ≡ spec.has_part word plan.now }
{
    match plan {
        Plan::Scan => matches!(word, PlanWord::Scan),
        Plan::Blocks(_, _, _) => matches!(word, PlanWord::Block),
        Plan::Rids(_, _) => matches!(word, PlanWord::Record),
        Plan::All(parts) => {
            for part in parts.as_slice() {
                if has_part(part, word) {
                    return true;
                }
            }
            false
        }
        Plan::Any(parts) => {
            for part in parts.as_slice() {
                if has_part(part, word) {
                    return true;
                }
            }
            false
        }
    }
}
