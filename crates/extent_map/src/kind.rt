// What an extent is, and its bytes in the extent map.
ghost use Rattle.std.specs.Prelude.{◌≡◌, ◌≢◌, ◌<◌, ◌≤◌, ◌↔◌, length, IsTrue, IfSome};
ghost use Rattle.extent_map.specs.Kinds.{kind_bytes, kind_stated, free_stated, block_stated, index_stated, is_block_kind, is_used_place, with_used_place, without_place, index_or_free, IsKindOf, lowest_unused_place};
ghost use Rattle.extent_map.specs.Map.{entry_of};
ghost use Rattle.extent_map.specs.declared.kind.Kind.{Kind};

use crate::layout::entry_place;
use store_api::Page;
use store_api::layout::EXTENT_ENTRY_BYTES;

/// What an extent is.
#[derive(Clone, Copy, Debug, PartialEq, Eq)]
pub enum Kind {
    /// It has no owner.
    Free,
    /// A block of the table of this number.
    Block(u8),
    /// It has pages of trees. Bit i is set where its page i is used.
    Index(u32),
}

/// The bytes of an extent in the map.
#[tactic(auto, unfolding(crate::specs::Kinds::kind_bytes))]
pub(crate) fn kind_bytes(kind: Kind) -> [u8; EXTENT_ENTRY_BYTES]
    ensures { result ≡ kind_bytes kind }
{
    match kind {
        Kind::Free => [0; EXTENT_ENTRY_BYTES],
        Kind::Block(table) => [1, table, 0, 0, 0, 0, 0, 0],
        Kind::Index(used) => {
            let bits = used.to_be_bytes();
            [2, 0, 0, 0, bits[0], bits[1], bits[2], bits[3]]
        }
    }
}

/// What an extent is by its bytes on its page of the map, or nothing where they have a wrong form.
pub(crate) fn kind_in(page: &Page, e: u32, extent_pages: u32) -> Option<Kind>
    requires { extent_pages ≤ 32 }
    ensures known { (kind : Kind) → IsKindOf extent_pages kind → entry_of page.now e ≡ kind_bytes kind → result ≡ Some kind }
    ensures form { IfSome result (IsKindOf extent_pages) }
{
    let at = entry_place(e);
    stated_kind(&page[at..at + EXTENT_ENTRY_BYTES], extent_pages)
}

/// What an extent is by its eight bytes, or nothing where they have a wrong form.
pub fn stated_kind(entry: &[u8], extent_pages: u32) -> Option<Kind>
    requires whole { length entry.now ≡ 8 }
    requires few { extent_pages ≤ 32 }
    ensures { result ≡ kind_stated extent_pages entry.now }
{
    if entry[2] != 0 || entry[3] != 0 {
        return None;
    }
    let used = u32::from_be_bytes([entry[4], entry[5], entry[6], entry[7]]);
    match entry[0] {
        0 => free_kind(entry[1], used),
        1 => block_kind(entry[1], used),
        2 => index_kind(entry[1], used, extent_pages),
        _ => None,
    }
}

fn free_kind(owner: u8, used: u32) -> Option<Kind>
    ensures { result ≡ free_stated owner used }
{
    if owner == 0 && used == 0 {
        Some(Kind::Free)
    } else {
        None
    }
}

fn block_kind(owner: u8, used: u32) -> Option<Kind>
    ensures { result ≡ block_stated owner used }
{
    if used == 0 {
        Some(Kind::Block(owner))
    } else {
        None
    }
}

fn index_kind(owner: u8, used: u32, extent_pages: u32) -> Option<Kind>
    requires { extent_pages ≤ 32 }
    ensures { result ≡ index_stated extent_pages owner used }
{
    if owner == 0 && used > 0 && u64::from(used) < 1 << extent_pages {
        Some(Kind::Index(used))
    } else {
        None
    }
}

/// The lowest place of an index extent whose page isn't used, where there is one.
pub(crate) fn lowest_unused_place(kind: Kind, extent_pages: u32) -> Option<u32>
    ensures { result ≡ lowest_unused_place extent_pages kind }
{
    match kind {
        Kind::Index(used) => {
            let ones = u64::from(used).trailing_ones();
            if ones < extent_pages {
                Some(ones)
            } else {
                None
            }
        }
        Kind::Free => None,
        Kind::Block(_) => None,
    }
}

/// Whether an extent isn't free.
pub(crate) fn is_owned(kind: Kind) -> bool
    ensures { IsTrue result ↔ (kind ≢ Kind.Free) }
{
    match kind {
        Kind::Free => false,
        Kind::Block(_) => true,
        Kind::Index(_) => true,
    }
}

/// Whether an extent is a block.
pub(crate) fn is_block_kind(kind: Kind) -> bool
    ensures { result ≡ is_block_kind kind }
{
    match kind {
        Kind::Block(_) => true,
        Kind::Free => false,
        Kind::Index(_) => false,
    }
}

/// Whether the page at a place of an index extent is used.
pub(crate) fn is_used_place(kind: Kind, place: u32) -> bool
    requires { place < 32 }
    ensures { result ≡ is_used_place place kind }
{
    match kind {
        Kind::Index(used) => used >> place & 1 == 1,
        Kind::Free => false,
        Kind::Block(_) => false,
    }
}

/// The kind with the page at a place used.
pub(crate) fn with_place(kind: Kind, place: u32) -> Kind
    requires { place < 32 }
    ensures { result ≡ with_used_place place kind }
{
    match kind {
        Kind::Free => Kind::Index(1 << place),
        Kind::Block(table) => Kind::Block(table),
        Kind::Index(used) => Kind::Index(used | 1 << place),
    }
}

/// The kind with the page at a place no longer used.
pub(crate) fn without_place(kind: Kind, place: u32) -> Kind
    requires { place < 32 }
    ensures { result ≡ without_place place kind }
{
    match kind {
        Kind::Free => Kind::Free,
        Kind::Block(table) => Kind::Block(table),
        Kind::Index(used) => index_or_free(used & !(1 << place)),
    }
}

fn index_or_free(used: u32) -> Kind
    ensures { result ≡ index_or_free used }
{
    if used == 0 {
        Kind::Free
    } else {
        Kind::Index(used)
    }
}
