// A page of the extent map, entry by entry.
ghost use Rattle.std.specs.Prelude.{◌≡◌, ◌<◌, ◌+◌, ◌↔◌, length, false, IsTrue, IsFalse, List, slice_index_or};
ghost use Rattle.store_api.specs.Extents.{first_page_of, map_pages};
ghost use Rattle.store_api.specs.StoreState.{page_at};
ghost use Rattle.extent_map.specs.declared.kind.Kind.{Kind};
ghost use Rattle.table_trees.specs.ToldPages.{PageList};
ghost use Rattle.mdc_sound.specs.SpaceRules.{IsMapPageSound, IsRootSound};
ghost use Rattle.file_check.specs.MapPagesJudged.{AreEntriesSound, IsEntrySound, TellTables, kind_on, owners_on};

use extent_map::{Kind, first_page, stated_kind};
use store_api::layout::{EXTENT_ENTRY_BYTES, MAP_PAGE_EXTENTS};
use store_api::{Page, Shape};

/// Whether page i of the extent map is sound, where there are so many pages, and these tables.
pub(crate) fn is_map_page_sound(
    shape: Shape,
    page: &Page,
    i: u32,
    count: u32,
    tables: &[bool],
) -> bool
    requires { i < map_pages shape.extents }
    ensures sound { IsTrue result → (pages : PageList) → IsRootSound shape pages → length pages ≡ count → TellTables pages tables.now → page_at pages (17 + i) ≡ page.now
        → IsMapPageSound shape pages (owners_on shape pages) i }
    ensures broken { IsFalse result → (pages : PageList) → IsRootSound shape pages → length pages ≡ count → TellTables pages tables.now → page_at pages (17 + i) ≡ page.now
        → (owners : List Kind) → IsMapPageSound shape pages owners i → ⊥ }
{
    are_entries_sound(shape, page, i, count, tables)
}

/// Whether each of its entries is sound.
fn are_entries_sound(shape: Shape, page: &Page, i: u32, count: u32, tables: &[bool]) -> bool
    requires { i < map_pages shape.extents }
    ensures { IsTrue result ↔ AreEntriesSound shape count tables.now page.now i }
{
    let first = i * MAP_PAGE_EXTENTS;
    for e in first..first + MAP_PAGE_EXTENTS {
        if !is_entry_sound(shape, page, e, count, tables) {
            return false;
        }
    }
    true
}

/// Whether the entry of an extent is sound.
fn is_entry_sound(shape: Shape, page: &Page, e: u32, count: u32, tables: &[bool]) -> bool
    requires { e < 131072 }
    ensures { IsTrue result ↔ IsEntrySound shape count tables.now e (kind_on shape page.now e) }
{
    let at = EXTENT_ENTRY_BYTES * (e % MAP_PAGE_EXTENTS) as usize;
    let Some(kind) = stated_kind(&page[at..at + EXTENT_ENTRY_BYTES], shape.extent_pages) else {
        return false;
    };
    match kind {
        Kind::Free => true,
        Kind::Block(table) => is_there(tables, table) && end_of(shape, e) <= count,
        Kind::Index(_) => end_of(shape, e) <= count,
    }
}

/// Whether a table is one of these.
fn is_there(tables: &[bool], table: u8) -> bool
    ensures { result ≡ slice_index_or tables.now table false }
{
    let t = usize::from(table);
    t < tables.len() && tables[t]
}

/// The first page behind an extent.
fn end_of(shape: Shape, e: u32) -> u32
    requires { e < 131072 }
    ensures { result ≡ first_page_of shape.extents shape.extent_pages (e + 1) }
{
    first_page(shape, 0) + (e + 1) * shape.extent_pages
}
