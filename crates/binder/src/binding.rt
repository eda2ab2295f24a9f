// A statement is judged, and then bound.
ghost use Rattle.std.specs.Prelude.{◌≡◌, [], IfOk};
ghost use Rattle.statement_meaning.specs.Binding.{bound_of};
ghost use Rattle.mdc_ast.specs.ValidDatabase.{AreValidDefs};
ghost use Rattle.statement_meaning.specs.Judged.{judged_of};
ghost use Rattle.statement_meaning.specs.Judging.{in_order};
ghost use Rattle.binder.specs.Refusing.{IsRefusedFor};

use crate::judging::judge;
use crate::objection::refusal;
use crate::statement_binding::bound;
use catalog::Catalog;
use mdc_ast::{Bound, Refusal, Stmt};
use mdc_values::Memory;
use std::alloc::Global;

/// Why a statement isn't bound: it is refused, or memory is wanting.
#[derive(Debug, Drop)]
pub enum BindFault {
    Refused(Refusal),
    Memory,
}

impl From<Memory> for BindFault {
    ghost use Rattle.std.specs.Prelude.{◌≡◌};
    ghost use Rattle.binder.specs.declared.binding.BindFault.TheVariants as fault;

    ghost from_gives = { λ _ e. e ≡ fault.Memory };

    fn from(_: Memory) -> Self {
        BindFault::Memory
    }
}

/// The statement with its names as places and its literals as values, where nothing is said against it. Else the refusal
/// for what is said first against it, in the order of refusals. EXPLAIN is bound as its query, and a form without a bound one of
/// its own is BEGIN. The catalog is only read, so that after want of memory the statement can be bound again.
pub fn bind(alloc: Global, stmt: &Stmt, catalog: &Catalog) -> Result<Bound, BindFault>
    requires valid { AreValidDefs catalog.now }
    ensures bound { IfOk result (λ bound. (in_order (judged_of catalog.now stmt.now) ≡ []) × (bound ≡ bound_of catalog.now stmt.now)) }
    ensures refused { IsRefusedFor (in_order (judged_of catalog.now stmt.now)) result }
{
    match judge(alloc, stmt, catalog)? {
        Ok(()) => Ok(bound(alloc, stmt, catalog)?),
        Err(objection) => Err(BindFault::Refused(refusal(alloc, &objection)?)),
    }
}
