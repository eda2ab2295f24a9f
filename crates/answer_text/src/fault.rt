// Why lines can't be given.
ghost use Rattle.std.specs.Prelude.{◌≡◌};

use mdc_ast::Name;
use mdc_values::Memory;

/// Why lines can't be given. `Overflow` names the column whose sum is outside BIGINT.
#[derive(Debug, Drop)]
pub enum AnswerFault {
    Overflow(Name),
    Memory,
}

impl From<Memory> for AnswerFault {
    ghost use Rattle.answer_text.specs.declared.fault.AnswerFault.TheVariants as answer_fault;

    ghost from_gives = { λ _ fault. fault ≡ answer_fault.Memory };

    fn from(_: Memory) -> AnswerFault {
        AnswerFault::Memory
    }
}
