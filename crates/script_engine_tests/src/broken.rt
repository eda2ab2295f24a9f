// Databases that are broken behind the engine's back, between two openings.
ghost use Rattle.std.specs.Prelude.{◌≡◌, false, None, IfOk};

use crate::patches::{Patch, write_over};
use crate::scripts::{AMPLE, Came, run_on, try_on};
use crate::stores::fresh_store;
use entry_tree_tests::save;
use std::alloc::Global;
use std::test::Fail;
use store_api::{Damage, Store};

/// The damage that names a rule and a page.
pub fn damage_of(rule: u16, page: u32) -> Option<Damage> {
    Some(Damage { page, rule })
}

// A store with what a script makes in it, over which patches are written. They are of the last commit.
fn broken<S: Store + Drop>(
    alloc: Global,
    store: S,
    making: &[u8],
    patches: &[Patch],
) -> Result<S, Fail>
    requires going { (S.state store).ended ≡ false }
    requires unmarked { (S.state store).marked ≡ None }
    ensures going { IfOk result (λ store. (S.state store).ended ≡ false) }
    ensures unmarked { IfOk result (λ store. (S.state store).marked ≡ None) }
{
    let (_, made) = run_on(alloc, store, AMPLE, making)?;
    let mut store = made;
    write_over(&mut store, patches)?;
    save(&mut store)?;
    Ok(store)
}

/// What comes of a script on the store that another script made and patches broke, and the store as it is then.
pub fn tried_on<S: Store + Drop>(
    alloc: Global,
    store: S,
    making: &[u8],
    patches: &[Patch],
    script: &[u8],
) -> Result<(Came, S), Fail>
    requires going { (S.state store).ended ≡ false }
    requires unmarked { (S.state store).marked ≡ None }
    ensures going { IfOk result (λ run. (S.state run.1).ended ≡ false) }
    ensures unmarked { IfOk result (λ run. (S.state run.1).marked ≡ None) }
{
    let store = broken(alloc, store, making, patches)?;
    try_on(alloc, store, AMPLE, script)
}

/// What is said to a last script by an engine that finds the pages of the last commit.
pub fn found_on<S: Store + Drop>(
    alloc: Global,
    store: S,
    making: &[u8],
    patches: &[Patch],
    script: &[u8],
    last: &[u8],
) -> Result<Vec<u8>, Fail>
    requires going { (S.state store).ended ≡ false }
    requires unmarked { (S.state store).marked ≡ None }
{
    let (_, left) = tried_on(alloc, store, making, patches, script)?;
    let mut store = left;
    store.rollback();
    let (said, _) = run_on(alloc, store, AMPLE, last)?;
    Ok(said)
}

/// What comes of a script on a store in memory, which was told what was answered and nothing else.
pub fn tried(alloc: Global, making: &[u8], patches: &[Patch], script: &[u8]) -> Result<Came, Fail> {
    let (came, store) = tried_on(alloc, fresh_store(alloc)?, making, patches, script)?;
    if !store.told().ends_with(came.said.as_slice()) {
        return Err("a reply that wasn't told")?;
    }
    Ok(came)
}

/// Whether a script is answered so to its end.
pub fn is_answered(
    alloc: Global,
    making: &[u8],
    patches: &[Patch],
    script: &[u8],
    replies: &[u8],
) -> Result<bool, Fail> {
    let came = tried(alloc, making, patches, script)?;
    Ok(came.damage.is_none() && came.said.as_slice() == replies)
}
