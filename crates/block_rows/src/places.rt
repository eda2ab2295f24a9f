// Where the slots of a block lie.
ghost use Rattle.std.specs.Prelude.{◌≡◌, ◌≤◌, ◌<◌, ◌+◌, ◌*◌, ◌/◌, ◌%◌, length, IfOk, OnOk};
ghost use Rattle.store_api.specs.Causes.{fault_of};
ghost use Rattle.store_api.specs.Extents.{first_page_of};
ghost use Rattle.store_api.specs.Frame.{NoPage};
ghost use Rattle.store_api.specs.RunsOverPages.{RunsOverPages};
ghost use Rattle.extent_map.specs.Map.{map_page_of};
ghost use Rattle.row_page.specs.RowPage.{slot_count};
ghost use Rattle.block_rows.specs.HeldRows.{BreaksExtent};

use mdc_values::Rid;
use row_page::RowShape;
use store_api::layout::{FIRST_MAP_PAGE, MAP_PAGE_EXTENTS};
use store_api::rules::EXTENTS_RULE;
use store_api::{Damage, Pages, Shape, StoreFault};

/// A slot of a page.
#[derive(Clone, Copy, Debug)]
pub(crate) struct SlotPlace {
    /// The number of the page.
    pub(crate) page: u32,
    /// The slot there.
    pub(crate) slot: u16,
}

/// The first page of a block. Damaged where the extent doesn't lie within the pages that there are.
pub(crate) fn first_page<P: Pages>(shape: Shape, pages: &P, block: u32) -> Result<u32, StoreFault>
    requires below { block < shape.extents }
    ensures first { IfOk result (λ p. p ≡ first_page_of shape.extents shape.extent_pages block) }
    ensures there { OnOk result (first_page_of shape.extents shape.extent_pages (block + 1) ≤ length (P.state pages.now).work) }
    ensures runs { RunsOverPages P.Pages NoPage NoPage (BreaksExtent P.Pages shape pages.now block) pages.now pages.now (fault_of result) }
{
    let first = extent_map::first_page(shape, block);
    if pages.count() < first + shape.extent_pages {
        return Err(StoreFault::Damaged(past_the_pages(block)));
    }
    Ok(first)
}

/// The extent of a block lies past the pages that there are.
fn past_the_pages(block: u32) -> Damage
    ensures page { result.page ≡ map_page_of block }
    ensures rule { result.rule ≡ 2 }
{
    Damage {
        page: FIRST_MAP_PAGE + block / MAP_PAGE_EXTENTS,
        rule: EXTENTS_RULE,
    }
}

/// Where a slot of a block lies.
pub(crate) fn place_of_slot<P: Pages>(
    row_shape: &RowShape<'_>,
    shape: Shape,
    pages: &P,
    rid: Rid,
) -> Result<SlotPlace, StoreFault>
    requires below { rid.block < shape.extents }
    requires slot { rid.slot < shape.extent_pages * slot_count row_shape.now.columns.now }
    ensures page { IfOk result (λ place. place.page ≡ first_page_of shape.extents shape.extent_pages rid.block + rid.slot / slot_count row_shape.now.columns.now) }
    ensures slot { IfOk result (λ place. place.slot ≡ rid.slot % slot_count row_shape.now.columns.now) }
    ensures below { IfOk result (λ place. place.slot < slot_count row_shape.now.columns.now) }
    ensures there { OnOk result (first_page_of shape.extents shape.extent_pages (rid.block + 1) ≤ length (P.state pages.now).work) }
    ensures within { IfOk result (λ place. place.page < length (P.state pages.now).work) }
    ensures runs { RunsOverPages P.Pages NoPage NoPage (BreaksExtent P.Pages shape pages.now rid.block) pages.now pages.now (fault_of result) }
{
    let first = first_page(shape, pages, rid.block)?;
    let slots = row_shape.slots();
    Ok(SlotPlace {
        page: first + u32::from(rid.slot / slots),
        slot: rid.slot % slots,
    })
}

/// The first slot of a block that lies on page j of it.
pub(crate) fn first_slot(row_shape: &RowShape<'_>, shape: Shape, j: u32) -> u16
    requires within { j < shape.extent_pages }
    ensures slot { result ≡ j * slot_count row_shape.now.columns.now }
    ensures room { result + slot_count row_shape.now.columns.now < 65536 }
{
    j as u16 * row_shape.slots()
}
