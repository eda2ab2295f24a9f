// Whether a place is among some.
ghost use Rattle.std.specs.Prelude.{◌↔◌, Contains, IsTrue};
ghost use Rattle.mdc_values.specs.Rising.{IsEarlier, IsRising};

use mdc_values::Rid;

/// Whether a place is among some that rise, by halving.
pub(crate) fn is_among(rids: &[Rid], rid: Rid) -> bool
    requires { IsRising IsEarlier rids.now }
    ensures { IsTrue result ↔ Contains rids.now rid }
{
    rids.binary_search_by_key(&(rid.block, rid.slot), |other| (other.block, other.slot))
        .is_ok()
}
