// The place of a row as one number: its block, and its slot in the lowest two bytes.
ghost use Rattle.std.specs.Prelude.{◌≡◌, ◌<◌, ◌^◌};
ghost use Rattle.record_index.specs.FoundRids.{IsRid, rid_number, rid_of_number};

use mdc_values::Rid;

/// How many bytes the number of a place has.
pub(crate) const RID_BYTES: usize = 6;

/// How many slots two bytes can tell apart.
const SLOT_NUMBERS: u64 = 65_536;

/// The number of a place.
pub(crate) fn rid_number(rid: Rid) -> u64
    ensures number { result ≡ rid_number rid }
    ensures small { result < 2 ^ 48 }
    ensures place { IsRid rid }
{
    let block = u64::from(rid.block);
    let slot = u64::from(rid.slot);
    block * SLOT_NUMBERS + slot
}

/// The place of a number.
pub(crate) fn rid_of_number(rid_number: u64) -> Rid
    requires { rid_number < 2 ^ 48 }
    ensures { result ≡ rid_of_number rid_number }
{
    Rid {
        block: (rid_number / SLOT_NUMBERS) as u32,
        slot: (rid_number % SLOT_NUMBERS) as u16,
    }
}
