// Stores in memory, their commits, and the extents of a database, lent to tests of other crates.
ghost use Rattle.std.specs.Prelude.{◌≡◌, false, None, IfOk, OnOk};

use std::alloc::Global;
use std::test::Fail;
use store_api::{MemStore, Page, Pages, Shape, Store, stated_count};

/// A store of these pages.
pub fn store_of(alloc: Global, pages: Vec<Page>) -> Result<MemStore, Fail>
    ensures going { IfOk result (λ store. (⟦<MemStore as Pages>⟧.state store).ended ≡ false) }
    ensures unmarked { IfOk result (λ store. (⟦<MemStore as Pages>⟧.state store).marked ≡ None) }
{
    if pages.len() > 1000 {
        return Err("more pages than a test has")?;
    }
    Ok(MemStore::new(alloc, pages))
}

/// So many extents of two pages each.
pub fn extents_of(extents: u32) -> Result<Shape, Fail> {
    match Shape::new(extents, 2) {
        Some(shape) => Ok(shape),
        None => Err("no shape of a database")?,
    }
}

/// Makes the work the base. Its page 0 must state how many pages there are.
pub fn save<S: Store>(store: &mut S) -> Result<(), Fail>
    requires going { (S.state store.old).ended ≡ false }
    requires unmarked { (S.state store.old).marked ≡ None }
    ensures going { OnOk result ((S.state store.new).ended ≡ false) }
    ensures unmarked { OnOk result ((S.state store.new).marked ≡ None) }
{
    if store.count() == 0 {
        return Err("no page 0")?;
    }
    store.fetch(0)?;
    if stated_count(store.page()) != store.count() {
        return Err("another count of pages")?;
    }
    store.prepare()?;
    store.commit()?;
    Ok(())
}
