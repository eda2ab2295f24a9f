// Where a search by rising place goes on.
ghost use Rattle.std.specs.Prelude.{◌≡◌, ◌<◌, ◌+◌, ◌*◌, ◌^◌, IfSome, MatchOption};
ghost use Rattle.record_index.specs.FoundRids.{rid_number};

use mdc_values::Rid;

/// The first place of all.
pub(crate) fn first_place() -> Rid
    ensures { rid_number result ≡ 0 }
{
    Rid { block: 0, slot: 0 }
}

/// The place behind one. None behind the last of all.
pub(crate) fn next_place(rid: Rid) -> Option<Rid>
    ensures next { MatchOption result (rid_number rid + 1 ≡ 2 ^ 48) (λ next. rid_number next ≡ rid_number rid + 1) }
    ensures small { IfSome result (λ next. rid_number next < 2 ^ 48) }
{
    if rid.slot == u16::MAX {
        return next_block(rid);
    }
    Some(Rid {
        block: rid.block,
        slot: rid.slot + 1,
    })
}

/// The first place of the next block. None behind the last block of all.
pub(crate) fn next_block(rid: Rid) -> Option<Rid>
    ensures next { MatchOption result (rid.block + 1 ≡ 2 ^ 32) (λ next. rid_number next ≡ (rid.block + 1) * 65536) }
    ensures small { IfSome result (λ next. rid_number next < 2 ^ 48) }
{
    if rid.block == u32::MAX {
        return None;
    }
    Some(Rid {
        block: rid.block + 1,
        slot: 0,
    })
}
