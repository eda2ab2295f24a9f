// Table pages that aren't those of definitions, and tables of one name.
ghost use Rattle.std.specs.Prelude.{◌≡◌, false};

use crate::stores::{fresh_store, store_with};
use crate::tables::{make_two, wide_page};
use crate::wrong::Wrong;
use entry_tree_tests::extents_of;
use extent_map::SpaceNotes;
use std::alloc::Global;
use std::test::Fail;
use store_api::{Damage, Page, Pages, StoreFault, patch_page, write_page};
use stored_catalog::load_catalog;

// A page of a store with two tables, a place in it, bytes that are written there, and the page that rule 3 then names, if any.
type Patch = (u32, usize, &'static [u8], Option<u32>);

// What makes a page no definition.
const NO_DEFINITION: [Patch; 8] = [
    (1, 0, b"\x55", Some(1)),
    (2, 0, b"\x00", Some(2)),
    (2, 4000, b"\x01", Some(2)),
    (1, 72, b"\x05", Some(1)),
    (2, 135, b"\x00", Some(2)),
    (2, 551, b"\x05", Some(2)),
    (6, 100, b"\x01", Some(6)),
    (16, 0, b"\x54", Some(16)),
];

// Roots, row numbers and which name it is are no part of what makes a page a definition, and the other pages are none of the table
// pages.
const NOT_LOOKED_AT: [Patch; 5] = [
    (1, 30, b"\x00\x00\x10\x00", None),
    (2, 22, b"\xff\xff\xff\xff\xff\xff\xff\xff", None),
    (1, 1, b"C", None),
    (17, 0, b"\x07", None),
    (0, 0, b"\x07", None),
];

// What gives the two tables one name.
const ONE_NAME: [Patch; 2] = [(2, 1, b"A", Some(1)), (1, 1, b"B", Some(1))];

// Rule 3 of a page, if there is one.
fn rule_three(page: Option<u32>) -> Option<Damage> {
    match page {
        Some(page) => Some(Damage { page, rule: 3 }),
        None => None,
    }
}

// Which damage loading the catalog names, if any.
fn damage_in<P: Pages>(alloc: Global, pages: &mut P) -> Result<Option<Damage>, Fail>
    requires going { (P.state pages.old).ended ≡ false }
{
    match load_catalog(alloc, pages) {
        Ok(_) => Ok(None),
        Err(StoreFault::Damaged(damage)) => Ok(Some(damage)),
        Err(fault) => Err(Fail::from(fault)),
    }
}

// Which damage is named once a patch is written beside two tables.
fn patched<P: Pages>(alloc: Global, pages: &mut P, patch: Patch) -> Result<Option<Damage>, Fail>
    requires going { (P.state pages.old).ended ≡ false }
{
    let (page, at, bytes, _) = patch;
    make_two(alloc, extents_of(16)?, &mut SpaceNotes::new(), pages)?;
    if page >= pages.count() || at > 4000 || bytes.len() > 96 {
        return Err(Fail::new("no such part of a page"));
    }
    patch_page(pages, page, at, bytes)?;
    damage_in(alloc, pages)
}

// Fails where another damage is named of a new store with the two tables and a patch.
fn check_patch(alloc: Global, patch: Patch) -> Result<(), Fail> {
    let named = patched(alloc, &mut fresh_store(alloc)?, patch)?;
    let (page, at, _, wanted) = patch;
    if named != rule_three(wanted) {
        return Err(Fail::from(Wrong::Damage(page, at)));
    }
    Ok(())
}

// The same of each of these, in a store of its own.
fn check_patches(alloc: Global, patches: &[Patch]) -> Result<(), Fail> {
    for patch in patches {
        check_patch(alloc, *patch)?;
    }
    Ok(())
}

#[test]
fn a_table_page_that_is_no_definition_is_named(rt: HostRuntime) -> Result<(), Fail> {
    check_patches(rt.alloc(), &NO_DEFINITION)
}

#[test]
fn roots_and_row_numbers_are_not_looked_at(rt: HostRuntime) -> Result<(), Fail> {
    check_patches(rt.alloc(), &NOT_LOOKED_AT)
}

// Writes the page of a definition into two places, and says which damage is named.
fn twice<P: Pages>(alloc: Global, pages: &mut P, page: &Page) -> Result<Option<Damage>, Fail>
    requires going { (P.state pages.old).ended ≡ false }
{
    if pages.count() < 18 {
        return Err(Fail::new("no table pages"));
    }
    write_page(pages, 10, page)?;
    write_page(pages, 4, page)?;
    damage_in(alloc, pages)
}

// The same in a new store, with the page of a table T.
fn damage_of_twice(alloc: Global) -> Result<Option<Damage>, Fail> {
    let page = wide_page(b'T', [18, 19, 20]);
    twice(alloc, &mut fresh_store(alloc)?, &page)
}

#[test]
fn the_lower_page_of_two_tables_of_one_name_is_named(rt: HostRuntime) -> Result<(), Fail> {
    check_patches(rt.alloc(), &ONE_NAME)?;
    let named = damage_of_twice(rt.alloc())?;
    assert!(rt; named == rule_three(Some(4)));
    Ok(())
}

// Which damage is named of a new store of so many pages.
fn damage_of_count(alloc: Global, many: u32) -> Result<Option<Damage>, Fail> {
    damage_in(alloc, &mut store_with(alloc, many)?)
}

#[test]
fn a_store_without_all_table_pages_is_named(rt: HostRuntime) -> Result<(), Fail> {
    let lacking = damage_of_count(rt.alloc(), 16)?;
    let whole = damage_of_count(rt.alloc(), 17)?;
    assert!(rt; lacking == Some(Damage { page: 0, rule: 1 }));
    assert!(rt; whole.is_none());
    Ok(())
}
