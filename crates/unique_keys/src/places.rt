// Places of rows, in the order in which they lie.
ghost use Rattle.std.specs.Prelude.{◌≡◌, ◌↔◌, ◌⊎◌, ◌-◌, Contains, IfOk, IsTrue, OnOk, length, slice_get};
ghost use Rattle.mdc_values.specs.Rising.{IsEarlier};
ghost use Rattle.mdc_values.specs.declared.rid.Rid.{Rid};

use mdc_values::{Memory, Rid, Rids};
use std::alloc::Global;

/// These places by rising block and slot, each once.
pub fn rising_places(alloc: Global, rids: Vec<Rid>) -> Result<Rids, Memory>
    ensures members { IfOk result (λ places. (rid : Rid) → Contains places rid ↔ Contains rids.items rid) }
{
    let mut rids = rids;
    rids.sort_by_key(|rid| (rid.block, rid.slot))?;
    let mut places = Rids::new(alloc);
    for rid in rids.as_slice() {
        put_last(&mut places, *rid)?;
    }
    Ok(places)
}

/// Puts a place last, unless it is the last already.
fn put_last(places: &mut Rids, rid: Rid) -> Result<(), Memory>
    requires behind { (place : Rid) → Contains places.old place → IsEarlier place rid ⊎ (place ≡ rid) }
    ensures members { OnOk result ((place : Rid) → Contains places.new place ↔ (Contains places.old place ⊎ (place ≡ rid))) }
{
    if is_last(places.as_slice(), rid) {
        return Ok(());
    }
    places.push(rid)
}

/// Whether a place is the last of some.
fn is_last(places: &[Rid], rid: Rid) -> bool
    ensures { IsTrue result ↔ (slice_get places.now (length places.now - 1) ≡ Some rid) }
{
    places.last() == Some(&rid)
}
