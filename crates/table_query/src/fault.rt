// Why a query has no lines.
ghost use Rattle.std.specs.Prelude.{◌≡◌};

use answer_text::AnswerFault;
use mdc_ast::Name;
use mdc_values::Memory;
use store_api::StoreFault;

/// Why a query has no lines. `Overflow` names the column whose sum is outside BIGINT.
#[derive(Debug, Drop)]
pub enum QueryFault {
    Overflow(Name),
    Store(StoreFault),
}

impl From<StoreFault> for QueryFault {
    ghost use Rattle.table_query.specs.declared.fault.QueryFault.TheVariants as query_fault;

    ghost from_gives = { λ fault query. query ≡ query_fault.Store fault };

    fn from(fault: StoreFault) -> QueryFault {
        QueryFault::Store(fault)
    }
}

impl From<AnswerFault> for QueryFault {
    ghost use Rattle.table_query.specs.Faults.{fault_of_lines};

    ghost from_gives = { λ fault query. query ≡ fault_of_lines fault };

    fn from(fault: AnswerFault) -> QueryFault {
        match fault {
            AnswerFault::Overflow(column) => QueryFault::Overflow(column),
            AnswerFault::Memory => QueryFault::Store(StoreFault::Memory),
        }
    }
}

impl From<Memory> for QueryFault {
    ghost use Rattle.store_api.specs.declared.fault.StoreFault.TheVariants as store_fault;
    ghost use Rattle.table_query.specs.declared.fault.QueryFault.TheVariants as query_fault;

    ghost from_gives = { λ _ query. query ≡ query_fault.Store store_fault.Memory };

    fn from(_: Memory) -> QueryFault {
        QueryFault::Store(StoreFault::Memory)
    }
}
