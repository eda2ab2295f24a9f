// The bits of a page's slots, and the count of its rows.
ghost use Rattle.std.specs.Prelude.{◌≡◌, ◌+◌, ◌-◌, ◌/◌, ◌%◌, ◌^◌, ◌≤◌, ◌<◌, ℕ, false, true, take, IsTrue, ◌↔◌, slice_index, slice_set};
ghost use Rattle.byteorder.specs.Endian.{big_bytes};
ghost use Rattle.store_api.specs.StoreState.{patched};
ghost use Rattle.row_page.specs.Slots.{TurnsSlot};
ghost use Rattle.row_page.specs.RowPage.{is_slot_filled, row_page_head, stated_rows};

use crate::layout::PAGE_HEAD;
use byteorder::{BigEndian, ByteOrder};
use store_api::Page;

/// Where the number of rows stands in a page.
pub const ROWS: usize = 4;

/// Whether a slot has a row, by its bit.
pub fn is_filled(page: &Page, slot: u16) -> bool
    requires { slot < 32640 }
    ensures { result ≡ is_slot_filled page.now slot }
{
    let slot = slot as usize;
    (page[PAGE_HEAD + slot / 8] >> (7 - slot % 8)) % 2 == 1
}

/// Sets the bit of an empty slot.
pub fn set_bit(page: &mut Page, slot: u16)
    requires within { slot < 32640 }
    requires empty { is_slot_filled page.old slot ≡ false }
    ensures { page.new ≡ slice_set page.old (16 + slot / 8) (slice_index page.old (16 + slot / 8) + 2 ^ (7 - slot % 8)) }
{
    let at = PAGE_HEAD + slot as usize / 8;
    let bits = page[at];
    page[at] = bits + (0x80 >> (slot % 8));
}

/// Clears the bit of a filled slot.
pub fn clear_bit(page: &mut Page, slot: u16)
    requires within { slot < 32640 }
    requires filled { is_slot_filled page.old slot ≡ true }
    ensures { page.new ≡ slice_set page.old (16 + slot / 8) (slice_index page.old (16 + slot / 8) - 2 ^ (7 - slot % 8)) }
{
    let at = PAGE_HEAD + slot as usize / 8;
    let bits = page[at];
    page[at] = bits - (0x80 >> (slot % 8));
}

/// The head of a page with so many slots and rows.
#[tactic(auto, unfolding(crate::specs::RowPage::row_page_head))]
pub fn head_of(slots: u16, rows: u16) -> [u8; PAGE_HEAD]
    ensures { result ≡ row_page_head slots rows }
{
    let [a, b] = slots.to_be_bytes();
    let [c, d] = rows.to_be_bytes();
    [b'R', b'P', a, b, c, d, 0, 0, 0, 0, 0, 0, 0, 0, 0, 0]
}

/// Whether a page begins as one with so many slots.
pub fn starts_with(page: &Page, slots: u16) -> bool
    ensures { IsTrue result ↔ (take 4 page.now ≡ take 4 (row_page_head slots 0)) }
{
    let head = head_of(slots, 0);
    page[..ROWS] == head[..ROWS]
}

/// Whether a page has the head of one with so many slots and rows.
pub fn has_head(page: &Page, slots: u16, rows: u16) -> bool
    ensures { IsTrue result ↔ (take 16 page.now ≡ row_page_head slots rows) }
{
    let head = head_of(slots, rows);
    page[..PAGE_HEAD] == head[..]
}

/// How many rows a page states.
pub fn rows_stated(page: &Page) -> u16
    ensures { result ≡ stated_rows page.now }
{
    BigEndian::read_u16(&page[ROWS..])
}

/// States how many rows a page has.
pub fn state_rows(page: &mut Page, rows: u16)
    ensures { page.new ≡ patched 4 (big_bytes 2 rows) page.old }
{
    page[ROWS..ROWS + 2].copy_from_slice(&rows.to_be_bytes());
}

/// The bits of eight slots, from a slot that begins a byte.
pub fn bits_from(page: &Page, slot: u16) -> u8
    requires { slot < 32640 }
    ensures { result ≡ slice_index page.now (16 + slot / 8) }
{
    page[PAGE_HEAD + slot as usize / 8]
}

/// How many slots have rows before the first that has none, of the 64 from a slot that begins a byte.
pub fn filled_from(page: &Page, slot: u16) -> u16
    requires within { slot < 32584 }
    requires first { slot % 8 ≡ 0 }
    ensures few { result ≤ 64 }
    ensures filled { (k : ℕ) → k < result → is_slot_filled page.now (slot + k) ≡ true }
    ensures ends { result < 64 → is_slot_filled page.now (slot + result) ≡ false }
{
    let at = PAGE_HEAD + slot as usize / 8;
    BigEndian::read_u64(&page[at..]).leading_ones() as u16
}

/// Counts a row in a slot, where none was.
pub fn fill(page: &mut Page, slot: u16)
    requires { slot < 32640 }
    ensures { TurnsSlot slot true page.old page.new }
{
    if !is_filled(page, slot) {
        set_bit(page, slot);
        state_rows(page, rows_stated(page).saturating_add(1));
    }
}

/// Counts no row in a slot, where one was.
pub fn empty(page: &mut Page, slot: u16)
    requires { slot < 32640 }
    ensures { TurnsSlot slot false page.old page.new }
{
    if is_filled(page, slot) {
        clear_bit(page, slot);
        state_rows(page, rows_stated(page).saturating_sub(1));
    }
}
