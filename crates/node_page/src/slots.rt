// The bytes of a node: numbers in them, and slots of one width that are put in, taken out, cut off and laid down.
ghost use Rattle.std.specs.Prelude.{◌≡◌, ◌+◌, ◌*◌, ◌≤◌, ◌++◌, length, drop};
ghost use Rattle.byteorder.specs.Endian.{big_bytes};
ghost use Rattle.store_api.specs.StoreState.{zero_page};
ghost use Rattle.node_page.specs.Node.{node_head, number_within};
ghost use Rattle.node_page.specs.Looked.{fork_width};
ghost use Rattle.node_page.specs.Slots.{blanked, closed_up, with_count, opened_up};

use store_api::{Page, blank_page, put};

/// How many bytes lie before the entries of a node.
pub const HEAD_BYTES: usize = 16;

pub const CHILD_BYTES: usize = 4;

pub const LEAF_MARK: u8 = 0x4c;

pub const INNER_MARK: u8 = 0x49;

/// Where the slot of a number begins.
pub fn slot_at(i: usize, step: usize) -> usize
    requires { i * step ≤ 4080 }
    ensures { result ≡ 16 + i * step }
{
    HEAD_BYTES + i * step
}

/// How many bytes a separator of a width takes, with the child behind it.
pub fn fork_step(width: u16) -> usize
    ensures { result ≡ fork_width width }
{
    usize::from(width) + CHILD_BYTES
}

/// The number in two bytes.
pub fn short_at(page: &Page, at: usize) -> u16
    requires { at + 2 ≤ 4096 }
    ensures { result ≡ number_within at 2 page.now }
{
    u16::from_be_bytes([page[at], page[at + 1]])
}

/// The number in four bytes.
pub fn number_at(page: &Page, at: usize) -> u32
    requires { at + 4 ≤ 4096 }
    ensures { result ≡ number_within at 4 page.now }
{
    u32::from_be_bytes([page[at], page[at + 1], page[at + 2], page[at + 3]])
}

/// Puts bytes in at a place, and moves what lies from there to the end behind them.
pub fn insert_bytes(page: &mut Page, at: usize, end: usize, bytes: &[u8])
    requires order { at ≤ end }
    requires room { end + length bytes.now ≤ 4096 }
    ensures { page.new ≡ opened_up at end bytes.now page.old }
{
    page.copy_within(at..end, at + bytes.len());
    page[at..at + bytes.len()].copy_from_slice(bytes);
}

/// Puts a separator and a child in at a place, and moves what lies from there to the end behind them.
pub fn insert_fork(page: &mut Page, at: usize, end: usize, separator: &[u8], child: u32)
    requires order { at ≤ end }
    requires room { end + length separator.now + 4 ≤ 4096 }
    ensures { page.new ≡ opened_up at end (separator.now ++ big_bytes 4 child) page.old }
{
    let behind = at + separator.len();
    page.copy_within(at..end, behind + CHILD_BYTES);
    put(page, at, separator);
    put(page, behind, &child.to_be_bytes());
}

/// Takes n bytes out at a place, and leaves zeros at the end of what moved.
pub fn remove_bytes(page: &mut Page, at: usize, n: usize, end: usize)
    requires order { at + n ≤ end }
    requires room { end ≤ 4096 }
    ensures { page.new ≡ closed_up at n end page.old }
{
    page.copy_within(at + n..end, at);
    page[end - n..end].copy_from_slice(&blank_page()[end - n..end]);
}

/// Writes zeros from a place on up to an end.
pub fn blank_bytes(page: &mut Page, from: usize, end: usize)
    requires order { from ≤ end }
    requires room { end ≤ 4096 }
    ensures { page.new ≡ blanked from end page.old }
{
    page[from..end].copy_from_slice(&blank_page()[from..end]);
}

/// Writes another count of entries.
pub fn set_count(page: &mut Page, n: u16)
    ensures { page.new ≡ with_count n page.old }
{
    page[4..6].copy_from_slice(&n.to_be_bytes());
}

/// Makes a page of a head and the bytes of its slots.
pub fn lay_down(page: &mut Page, head: &[u8; 16], slots: &[u8])
    requires { length slots.now ≤ 4080 }
    ensures { page.new ≡ head.now ++ (slots.now ++ drop (16 + length slots.now) zero_page) }
{
    let end = HEAD_BYTES + slots.len();
    put(page, 0, head);
    put(page, HEAD_BYTES, slots);
    put(page, end, &blank_page()[end..]);
}

/// The head of a node.
pub fn head_of(mark: u8, width: u16, count: u16, child: u32) -> [u8; 16]
    ensures { result ≡ node_head mark width count child }
{
    let width = width.to_be_bytes();
    let count = count.to_be_bytes();
    let child = child.to_be_bytes();
    [
        mark, 0, width[0], width[1], count[0], count[1], 0, 0, child[0], child[1], child[2],
        child[3], 0, 0, 0, 0,
    ]
}
