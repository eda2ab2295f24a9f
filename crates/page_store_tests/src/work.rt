// Work on a store, whatever it is.
ghost use Rattle.std.specs.Prelude.{◌≡◌, false, true, None, OnOk};

use std::test::Fail;
use store_api::{Page, Pages, Store, patch_page, stated_count};

/// A call that the store can't take now.
#[derive(Clone, Copy, Debug)]
pub struct Refused;

/// Brings a page of the work to hand, and copies it.
pub fn page_of<S: Pages>(store: &mut S, p: u32) -> Result<Page, Fail>
    requires { (S.state store.old).ended ≡ false }
    ensures going { (S.state store.new).ended ≡ false }
    ensures marked { (S.state store.new).marked ≡ (S.state store.old).marked }
    ensures base { (S.state store.new).base ≡ (S.state store.old).base }
{
    if p >= store.count() {
        return Err(Refused)?;
    }
    store.fetch(p)?;
    Ok(*store.page())
}

/// Brings pages of the work to hand, one after another.
pub fn fetch_each<S: Pages>(store: &mut S, pages: &[u32]) -> Result<(), Fail>
    requires { (S.state store.old).ended ≡ false }
    ensures { (S.state store.new).ended ≡ false }
{
    for p in pages {
        page_of(store, *p)?;
    }
    Ok(())
}

/// The byte that fills a page of the work.
pub fn byte_of<S: Pages>(store: &mut S, p: u32) -> Result<u8, Fail>
    requires { (S.state store.old).ended ≡ false }
    ensures going { (S.state store.new).ended ≡ false }
    ensures marked { (S.state store.new).marked ≡ (S.state store.old).marked }
    ensures base { (S.state store.new).base ≡ (S.state store.old).base }
{
    let page = page_of(store, p)?;
    if page != [page[0]; 4096] {
        return Err(Refused)?;
    }
    Ok(page[0])
}

/// Writes over a page of the work.
pub fn put<S: Pages>(store: &mut S, p: u32, page: &Page) -> Result<(), Fail>
    requires { (S.state store.old).ended ≡ false }
    ensures going { (S.state store.new).ended ≡ false }
    ensures marked { (S.state store.new).marked ≡ (S.state store.old).marked }
    ensures base { (S.state store.new).base ≡ (S.state store.old).base }
{
    if p >= store.count() {
        return Err(Refused)?;
    }
    store.write(p, page)?;
    Ok(())
}

/// Fills a page of the work in place.
pub fn fill<S: Pages>(store: &mut S, p: u32, byte: u8) -> Result<(), Fail>
    requires { (S.state store.old).ended ≡ false }
    ensures going { (S.state store.new).ended ≡ false }
    ensures marked { (S.state store.new).marked ≡ (S.state store.old).marked }
    ensures base { (S.state store.new).base ≡ (S.state store.old).base }
{
    if p >= store.count() {
        return Err(Refused)?;
    }
    patch_page(store, p, 0, &[byte; 4096])?;
    Ok(())
}

/// Makes the work ready for a commit. Its page 0 states how many pages it has.
pub fn make_ready<S: Store>(store: &mut S) -> Result<(), Fail>
    requires going { (S.state store.old).ended ≡ false }
    requires unmarked { (S.state store.old).marked ≡ None }
    ensures going { (S.state store.new).ended ≡ false }
    ensures ready { OnOk result ((S.state store.new).prepared ≡ true) }
{
    if store.count() == 0 {
        return Err(Refused)?;
    }
    store.fetch(0)?;
    if stated_count(store.page()) != store.count() {
        return Err(Refused)?;
    }
    store.prepare()?;
    Ok(())
}

/// Makes the work ready in which page 5 is full of sevens.
pub fn make_sevens_ready<S: Store>(store: &mut S) -> Result<(), Fail>
    requires going { (S.state store.old).ended ≡ false }
    requires unmarked { (S.state store.old).marked ≡ None }
    ensures going { (S.state store.new).ended ≡ false }
    ensures ready { OnOk result ((S.state store.new).prepared ≡ true) }
{
    put(store, 5, &[7; 4096])?;
    make_ready(store)
}

/// The byte that fills page 5, after calls that change it and take it back.
#[derive(Clone, Copy, Debug, PartialEq, Eq)]
pub struct PageFive {
    pub written: u8,
    pub undone: u8,
    pub kept: u8,
    pub in_base: u8,
    pub rolled_back: u8,
}

/// Fills page 5 in place with ones, with twos and back to the ones, writes threes over it to be kept, and rolls back.
pub fn there_and_back<S: Store>(store: &mut S) -> Result<PageFive, Fail>
    requires going { (S.state store.old).ended ≡ false }
    requires unmarked { (S.state store.old).marked ≡ None }
    requires unchanged { (S.state store.old).work ≡ (S.state store.old).base }
{
    if store.count() <= 5 {
        return Err(Refused)?;
    }
    fill(store, 5, 1)?;
    store.mark();
    fill(store, 5, 2)?;
    let written = byte_of(store, 5)?;
    store.undo();
    let undone = byte_of(store, 5)?;
    store.mark();
    put(store, 5, &[3; 4096])?;
    store.keep()?;
    let kept = byte_of(store, 5)?;
    store.committed(5)?;
    let in_base = store.page()[0];
    store.rollback();
    Ok(PageFive {
        written,
        undone,
        kept,
        in_base,
        rolled_back: byte_of(store, 5)?,
    })
}

/// Adds two pages to the 18 of a small database, and makes them ready.
pub fn make_growth_ready<S: Store>(store: &mut S) -> Result<(), Fail>
    requires going { (S.state store.old).ended ≡ false }
    requires unmarked { (S.state store.old).marked ≡ None }
    ensures going { (S.state store.new).ended ≡ false }
    ensures ready { OnOk result ((S.state store.new).prepared ≡ true) }
{
    if store.count() != 18 {
        return Err(Refused)?;
    }
    store.grow(2)?;
    let mut root = page_of(store, 0)?;
    root[11] = 20;
    put(store, 0, &root)?;
    make_ready(store)
}
