// What a test sees of catalogs and pages, beside what it should see.
ghost use Rattle.std.specs.Prelude.{◌≡◌, false};

use crate::wrong::Wrong;
use catalog::Catalog;
use mdc_ast::TableDef;
use std::test::Fail;
use store_api::{Page, Pages, blank_page, bring, put};

/// What is seen of a definition. The roots are those of the block map, of the index of all dimensions and of the first dimension.
#[derive(Clone, Copy, PartialEq)]
pub struct Look {
    pub name: u8,
    pub number: u8,
    pub next: u64,
    pub roots: [u32; 3],
}

// What is seen of the table in a place, if there is one.
fn looked_at(catalog: &Catalog, table: u8) -> Option<Look> {
    if table >= 16 {
        return None;
    }
    match catalog.def(table) {
        Some(def) => Some(look_of(def)),
        None => None,
    }
}

fn look_of(def: &TableDef) -> Look {
    let dim = match def.roots.dims.as_slice().first() {
        Some(root) => *root,
        None => 0,
    };
    Look {
        name: letter_of(def.name.0.bytes()),
        number: def.number,
        next: def.next,
        roots: [def.roots.map, def.roots.composite, dim],
    }
}

// The letter of a name of one, and else 0.
fn letter_of(name: &[u8]) -> u8 {
    if name.len() == 1 { name[0] } else { 0 }
}

// What should be seen in a place of a catalog whose first places are these, and whose others are empty.
fn wanted_at(first: &[Option<Look>], table: u8) -> Option<Look> {
    match first.get(usize::from(table)) {
        Some(look) => *look,
        None => None,
    }
}

/// Fails where a catalog isn't one whose first places are these, and whose others are empty.
pub fn check_tables(catalog: &Catalog, first: &[Option<Look>]) -> Result<(), Fail> {
    for table in 0..16u8 {
        if looked_at(catalog, table) != wanted_at(first, table) {
            return Err(Fail::from(Wrong::Table(table)));
        }
    }
    Ok(())
}

/// Fails where a page has other bytes.
pub fn check_page<P: Pages>(pages: &mut P, p: u32, bytes: &Page) -> Result<(), Fail>
    requires going { (P.state pages.old).ended ≡ false }
    ensures going { (P.state pages.new).ended ≡ false }
{
    if p >= pages.count() {
        return Err(Fail::from(Wrong::Page(p)));
    }
    bring(pages, p)?;
    if pages.page()[..] != bytes[..] {
        return Err(Fail::from(Wrong::Page(p)));
    }
    Ok(())
}

/// Fails where there is another number of pages.
pub fn check_count<P: Pages>(pages: &P, wanted: u32) -> Result<(), Fail> {
    let count = pages.count();
    if count != wanted {
        return Err(Fail::from(Wrong::Count(count)));
    }
    Ok(())
}

// The page of an extent map whose first four entries are these, and whose others are of free extents.
fn map_page(entries: &[[u8; 8]; 4]) -> Page {
    let mut page = *blank_page();
    put(&mut page, 0, &entries[0]);
    put(&mut page, 8, &entries[1]);
    put(&mut page, 16, &entries[2]);
    put(&mut page, 24, &entries[3]);
    page
}

/// Fails where the page of the extent map has other entries than these first, and those of free extents.
pub fn check_map<P: Pages>(pages: &mut P, entries: &[[u8; 8]; 4]) -> Result<(), Fail>
    requires going { (P.state pages.old).ended ≡ false }
    ensures going { (P.state pages.new).ended ≡ false }
{
    check_page(pages, 17, &map_page(entries))
}
