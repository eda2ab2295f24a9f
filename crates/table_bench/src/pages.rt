// Calls of a store. Each tests first what it requires.
ghost use Rattle.std.specs.Prelude.{◌≡◌, false, None, OnOk};

use crate::stop::Stop;
use store_api::{Page, Pages, Store, blank_page, bring, stated_count, write_page};

/// Whether a page of the work is zeros.
pub fn is_zero_page<S: Pages>(store: &mut S, p: u32) -> Result<bool, Stop>
    requires going { (S.state store.old).ended ≡ false }
    ensures going { (S.state store.new).ended ≡ false }
    ensures marked { (S.state store.new).marked ≡ (S.state store.old).marked }
{
    if p >= store.count() {
        return Err(Stop::TooFewPages);
    }
    bring(store, p)?;
    Ok(store.page()[..] == blank_page()[..])
}

/// Writes over a page of the work.
pub fn write_over<S: Pages>(store: &mut S, p: u32, bytes: &Page) -> Result<(), Stop>
    requires going { (S.state store.old).ended ≡ false }
    ensures going { (S.state store.new).ended ≡ false }
    ensures marked { (S.state store.new).marked ≡ (S.state store.old).marked }
{
    if p >= store.count() {
        return Err(Stop::TooFewPages);
    }
    write_page(store, p, bytes)?;
    Ok(())
}

/// Makes the work the base. Its page 0 must state how many pages there are.
pub fn commit<S: Store>(store: &mut S) -> Result<(), Stop>
    requires going { (S.state store.old).ended ≡ false }
    requires unmarked { (S.state store.old).marked ≡ None }
    ensures going { OnOk result ((S.state store.new).ended ≡ false) }
    ensures unmarked { OnOk result ((S.state store.new).marked ≡ None) }
{
    if store.count() == 0 {
        return Err(Stop::TooFewPages);
    }
    store.fetch(0)?;
    if stated_count(store.page()) != store.count() {
        return Err(Stop::Uncounted);
    }
    store.prepare()?;
    store.commit()?;
    Ok(())
}
