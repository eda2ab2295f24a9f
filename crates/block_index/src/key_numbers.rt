// Entries that are a key and a number of some bytes behind it.
ghost use Rattle.std.specs.Prelude.{◌≡◌, ◌≢◌, ◌+◌, ◌≤◌, ◌<◌, ◌^◌, false, length, take, IfNone, IfOk, IfSome};
ghost use Rattle.store_api.specs.Causes.{fault_of};
ghost use Rattle.store_api.specs.Frame.{NoPage};
ghost use Rattle.store_api.specs.RunsOverPages.{RunsOverPages};
ghost use Rattle.entry_tree.specs.Forest.{Forest, leaf_entries};
ghost use Rattle.entry_tree.specs.HeldTrees.{BreaksTree, HoldsTree, IsTreePage};
ghost use Rattle.block_index.specs.Numbered.{FindsNumber, numbered};

use crate::leaves::out_of_order;
use byteorder::{BigEndian, ByteOrder};
use entry_tree::{Entry, MAX_WIDTH, Tree};
use store_api::{Pages, StoreFault};

/// A key, and a number in so many bytes behind it. It takes no memory.
pub fn numbered(key: &[u8], width: usize, number: u64) -> Entry
    requires some { 1 ≤ width }
    requires few { width ≤ 8 }
    requires short { length key.now + width ≤ MAX_WIDTH }
    requires fits { number < 256 ^ width }
    ensures { result ≡ numbered width key.now number }
{
    let mut bytes = [0; MAX_WIDTH];
    put_numbered(&mut bytes, key, width, number);
    Entry::of(&bytes[..key.len() + width])
}

/// Writes a key and the number behind it to the front of `out`.
fn put_numbered(out: &mut [u8], key: &[u8], width: usize, number: u64)
    requires some { 1 ≤ width }
    requires few { width ≤ 8 }
    requires room { length key.now + width ≤ length out.old }
    requires fits { number < 256 ^ width }
    ensures { take (length key.now + width) out.new ≡ numbered width key.now number }
{
    let end = key.len();
    out[..end].copy_from_slice(key);
    BigEndian::write_uint(&mut out[end..], number, width);
}

/// The lowest number of so many bytes, from a number on, that an index has under a key. It is one descent, and takes no memory.
pub fn next_number<P: Pages>(
    tree: &Tree,
    pages: &mut P,
    key: &[u8],
    width: usize,
    from: u64,
) -> Result<Option<u64>, StoreFault>
    requires some { 1 ≤ width }
    requires few { width ≤ 8 }
    requires width { length key.now + width ≡ tree.now.width }
    requires fits { from < 256 ^ width }
    requires going { (P.state pages.old).ended ≡ false }
    ensures found { IfOk result (λ number. (t : Forest) → HoldsTree P.Pages pages.old tree.now t → FindsNumber width key.now (leaf_entries t) from number) }
    ensures reached { IfOk result (λ number. IfSome number (λ number. from ≤ number)) }
    ensures fits { IfOk result (λ number. IfSome number (λ number. number < 256 ^ width)) }
    ensures same { (P.state pages.new).work ≡ (P.state pages.old).work }
    ensures runs { RunsOverPages P.Pages NoPage (IsTreePage P.Pages pages.old tree.now) (BreaksTree P.Pages pages.old tree.now) pages.old pages.new (fault_of result) }
{
    let bound = numbered(key, width, from);
    let Some(first) = tree.first_from(pages, bound.bytes())? else {
        return Ok(None);
    };
    let Some(number) = number_under(key, width, first.bytes()) else {
        return Ok(None);
    };
    if number < from {
        return Err(out_of_order(tree));
    }
    Ok(Some(number))
}

/// The number that an entry has under a key. None where the entry doesn't begin with the key.
fn number_under(key: &[u8], width: usize, entry: &[u8]) -> Option<u64>
    requires some { 1 ≤ width }
    requires few { width ≤ 8 }
    requires long { length key.now + width ≡ length entry.now }
    ensures some { IfSome result (λ number. entry.now ≡ numbered width key.now number) }
    ensures fits { IfSome result (λ number. number < 256 ^ width) }
    ensures none { IfNone result (take (length key.now) entry.now ≢ key.now) }
{
    let (front, back) = entry.split_at(key.len());
    if front == key {
        Some(BigEndian::read_uint(back, width))
    } else {
        None
    }
}
