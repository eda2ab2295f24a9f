// Why lines can't be given.
ghost use Rattle.std.specs.Prelude.{◌≡◌};

use mdc_values::Memory;

/// Why lines can't be given: a sum is outside BIGINT, named by its column, or memory is wanting.
#[derive(Clone, Copy, Debug, PartialEq, Eq)]
pub enum GroupFault {
    Overflow(u8),
    Memory,
}

impl From<Memory> for GroupFault {
    ghost use Rattle.row_groups.specs.declared.fault.GroupFault.TheVariants as group_fault;

    ghost from_gives = { λ _ fault. fault ≡ group_fault.Memory };

    fn from(_: Memory) -> GroupFault {
        GroupFault::Memory
    }
}
