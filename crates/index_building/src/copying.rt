// A copy of a definition.
ghost use Rattle.std.specs.Prelude.{◌≡◌, IfErr, IfOk};
ghost use Rattle.mdc_ast.specs.TableLimits.{IsTableDef};

use mdc_ast::TableDef;
use std::alloc::Global;
use store_api::{StoreFault, blank_page};
use table_page::{DefFault, def_of, def_page};

/// A copy of a definition, through the bytes of its page: what is written to a table page is changed in a copy, so that a fault
/// leaves the catalog as it was.
pub(crate) fn copy_of(alloc: Global, def: &TableDef) -> Result<TableDef, StoreFault>
    requires defined { IsTableDef def.now.number def.now }
    ensures copy { IfOk result (λ copy. copy ≡ def.now) }
    ensures memory { IfErr result (λ fault. fault ≡ StoreFault.Memory) }
{
    let mut page = *blank_page();
    def_page(def, &mut page);
    match def_of(alloc, &page, def.number) {
        Ok(Some(copy)) => Ok(copy),
        Err(DefFault::Memory) => Err(StoreFault::Memory),
        // The page is that of a definition.
        Ok(None) | Err(DefFault::Form) => unreachable!(),
    }
}
