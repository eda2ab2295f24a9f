// Why a page gives no definition.
use mdc_values::Memory;

/// Why a page gives no definition: it is neither zeros nor the page of one, or memory ran out.
#[derive(Clone, Copy, Debug, PartialEq, Eq)]
pub enum DefFault {
    Form,
    Memory,
}

impl From<Memory> for DefFault {
    ghost use Rattle.std.specs.Prelude.{◌≡◌};
    ghost use Rattle.table_page.specs.declared.fault.DefFault.TheVariants as fault;

    ghost from_gives = { λ _ e. e ≡ fault.Memory };

    fn from(_: Memory) -> Self {
        DefFault::Memory
    }
}
