// Calls of a store. Each tests first what it requires.
ghost use Rattle.std.specs.Prelude.{◌≡◌, false, None, IsSome, OnOk};

use bench_plan::Stop;
use store_api::{Page, Pages, Store, put, stated_count};

// Where in a page bytes are written over.
const PLACE: usize = 1000;

/// Brings a page of the work to hand.
pub fn fetch<S: Pages>(store: &mut S, p: u32) -> Result<(), Stop>
    requires { (S.state store.old).ended ≡ false }
    ensures hand { OnOk result (IsSome (S.state store.new).hand) }
    ensures going { (S.state store.new).ended ≡ false }
    ensures marked { (S.state store.new).marked ≡ (S.state store.old).marked }
{
    if p >= store.count() {
        return Err(Stop::TooLarge);
    }
    store.fetch(p)?;
    Ok(())
}

/// Writes over a page of the work.
pub fn write<S: Pages>(store: &mut S, p: u32, bytes: &Page) -> Result<(), Stop>
    requires { (S.state store.old).ended ≡ false }
    ensures going { (S.state store.new).ended ≡ false }
    ensures marked { (S.state store.new).marked ≡ (S.state store.old).marked }
{
    if p >= store.count() {
        return Err(Stop::TooLarge);
    }
    store.write(p, bytes)?;
    Ok(())
}

/// Writes bytes over ten of a page of the work.
pub fn edit<S: Pages>(store: &mut S, p: u32, bytes: &[u8; 10]) -> Result<(), Stop>
    requires { (S.state store.old).ended ≡ false }
    ensures going { (S.state store.new).ended ≡ false }
    ensures marked { (S.state store.new).marked ≡ (S.state store.old).marked }
{
    if p >= store.count() {
        return Err(Stop::TooLarge);
    }
    put(store.edit(p)?, PLACE, bytes);
    Ok(())
}

/// Makes the work the base. Its page 0 must state how many pages there are.
pub fn commit<S: Store>(store: &mut S) -> Result<(), Stop>
    requires going { (S.state store.old).ended ≡ false }
    requires unmarked { (S.state store.old).marked ≡ None }
    ensures going { OnOk result ((S.state store.new).ended ≡ false) }
    ensures unmarked { OnOk result ((S.state store.new).marked ≡ None) }
{
    if store.count() == 0 {
        return Err(Stop::TooLarge);
    }
    store.fetch(0)?;
    if stated_count(store.page()) != store.count() {
        return Err(Stop::Uncounted);
    }
    store.prepare()?;
    store.commit()?;
    Ok(())
}
