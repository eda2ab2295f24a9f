// The commit of all pages as they are now.
ghost use Rattle.std.specs.Prelude.{◌≡◌, false, length, IsTrue, None, Err};
ghost use Rattle.store_api.specs.StoreState.{stated_count};
ghost use Rattle.store_api.specs.Works.{Rests};
ghost use Rattle.store_api.specs.declared.fault.Damage.{Damage};
ghost use Rattle.script_engine.specs.Breaking.{NamesExactly};
ghost use Rattle.script_engine.specs.Committing.{CommitsWork, CountsPages};
ghost use Rattle.store_api.specs.declared.fault.StoreFault.TheVariants as stop;

use crate::damage::stop_at;
use crate::tables::Tables;
use store_api::layout::ROOT_PAGE;
use store_api::rules::ROOT_PAGE_RULE;
use store_api::{Damage, Store, StoreFault, stated_count};

/// The damage of a page 0 that doesn't state how many pages there are.
pub(crate) const WRONG_COUNT: Damage = Damage {
    page: ROOT_PAGE,
    rule: ROOT_PAGE_RULE,
};

/// Makes the work the base. `Damaged` names the damage of the work, where page 0 doesn't state how many pages there are; nothing is
/// committed then.
pub(crate) fn commit_work<S: Store>(tables: &Tables, store: &mut S) -> Result<(), StoreFault>
    requires going { (S.state store.old).ended ≡ false }
    requires unmarked { (S.state store.old).marked ≡ None }
    ensures commits { CommitsWork S.Pages result store.old store.new }
    ensures rests { Rests S.Pages store.old → Rests S.Pages store.new }
    ensures exact { NamesExactly S.Pages tables.now.shape result store.new }
{
    if !is_counted(store)? {
        return Err(stop_at(tables.alloc, tables.shape, store, WRONG_COUNT));
    }
    commit_counted(store)
}

/// Whether page 0 states how many pages there are.
#[tactic(auto, using(crate::proofs::CommittingLemmas::brings_same))]
pub(crate) fn is_counted<S: Store>(store: &mut S) -> Result<bool, StoreFault>
    requires going { (S.state store.old).ended ≡ false }
    ensures counts { CountsPages S.Pages result store.old store.new }
{
    let count = store.count();
    if count == 0 {
        return Ok(false);
    }
    store.fetch(0)?;
    if stated_count(store.page()) != count {
        return Ok(false);
    }
    Ok(true)
}

/// Makes the work the base, whose page 0 states how many pages there are.
#[tactic(auto, using(crate::proofs::CommittingLemmas::brings_same))]
pub(crate) fn commit_counted<S: Store>(store: &mut S) -> Result<(), StoreFault>
    requires going { (S.state store.old).ended ≡ false }
    requires unmarked { (S.state store.old).marked ≡ None }
    requires counted { IsTrue (S.state store.old).is_told → stated_count (S.state store.old).work ≡ length (S.state store.old).work }
    ensures commits { CommitsWork S.Pages result store.old store.new }
    ensures rests { Rests S.Pages store.old → Rests S.Pages store.new }
    ensures whole { (damage : Damage) → result ≡ Err (stop.Damaged damage) → ⊥ }
{
    store.prepare()?;
    store.commit()?;
    Ok(())
}
