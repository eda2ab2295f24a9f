// Where an extent stands in the extent map.
ghost use Rattle.std.specs.Prelude.{◌≡◌};
ghost use Rattle.extent_map.specs.Map.{map_page_of, entry_place};

use store_api::Damage;
use store_api::layout::{EXTENT_ENTRY_BYTES, FIRST_MAP_PAGE, MAP_PAGE_EXTENTS, ROOT_PAGE};
use store_api::rules::{EXTENTS_RULE, ROOT_PAGE_RULE, TREE_PAGES_RULE};

/// The place of the page count on page 0.
pub(crate) const COUNT_PLACE: usize = 8;

/// The page of the map that an extent stands on.
pub(crate) fn map_page_of(e: u32) -> u32
    ensures { result ≡ map_page_of e }
{
    FIRST_MAP_PAGE + e / MAP_PAGE_EXTENTS
}

/// The place of the bytes of an extent on its page of the map.
pub(crate) fn entry_place(e: u32) -> usize
    ensures { result ≡ entry_place e }
{
    EXTENT_ENTRY_BYTES * (e % MAP_PAGE_EXTENTS) as usize
}

/// There aren't as many pages as whole extents make.
pub(crate) fn wrong_count() -> Damage
    ensures { (result.page ≡ 0) × (result.rule ≡ 1) }
{
    Damage {
        page: ROOT_PAGE,
        rule: ROOT_PAGE_RULE,
    }
}

/// What the map says of an extent has a wrong form.
pub(crate) fn wrong_entry(e: u32) -> Damage
    ensures { (result.page ≡ map_page_of e) × (result.rule ≡ 2) }
{
    Damage {
        page: map_page_of(e),
        rule: EXTENTS_RULE,
    }
}

/// The page isn't a used page of an index extent.
pub fn unused_page(p: u32) -> Damage
    ensures { (result.page ≡ p) × (result.rule ≡ 5) }
{
    Damage {
        page: p,
        rule: TREE_PAGES_RULE,
    }
}
