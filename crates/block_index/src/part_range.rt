// A range of one part of the keys of an index.
ghost use Rattle.std.specs.Prelude.{◌≡◌, ◌+◌, ◌≤◌, ◌++◌, List, true, false, length, take, Contains, IfErr, IfOk, IsTrue, OnOk};
ghost use Rattle.std.specs.List.{AllByRecursion};
ghost use Rattle.mdc_words.specs.ByteOrder.{Entry};
ghost use Rattle.key_codec.specs.Keys.{ArePartsOf, type_of_column, width_of_parts};
ghost use Rattle.key_codec.specs.Spans.{IsRangeOf, span_has_kind_of};
ghost use Rattle.table_trees.specs.TableTrees.{rising_parts};
ghost use Rattle.block_index.specs.PartRanges.{blocks_in_range, ends_walk, entries_until, has_part_in, last_block, offset_of, start_of_walk};

use crate::leaves::is_below;
use byteorder::{BigEndian, ByteOrder};
use entry_tree::{Entries, Entry, MAX_WIDTH};
use key_codec::{Key, key_range, part_width};
use mdc_ast::{ColumnDef, KeyPart, Span};
use mdc_values::List;
use mdc_words::Steps;
use std::alloc::Global;
use std::sync::ledger::Ledger;
use store_api::StoreFault;

/// From which byte of an entry a part begins, and between which bounds it lies: at or above the first, and below the second, if
/// there is one.
#[derive(Drop)]
pub struct PartRange {
    pub at: usize,
    pub low: Key,
    pub high: Option<Key>,
}

impl PartRange {
    /// The range of the values of a span in a column of an index.
    pub(crate) fn of(
        alloc: Global,
        columns: &List<ColumnDef>,
        places: &List<u8>,
        column: u8,
        span: &Span,
    ) -> Result<PartRange, StoreFault>
        requires parts { ArePartsOf columns.now (rising_parts places.now) }
        requires there { Contains places.now column }
        requires kind { IsTrue (span_has_kind_of (type_of_column columns.now column) span.now) }
        ensures values { IfOk result (λ range. IsRangeOf (type_of_column columns.now column) false span.now range.low range.high) }
        ensures at { IfOk result (λ range. range.at ≡ offset_of columns.now places.now column) }
        ensures within { IfOk result (λ range. range.at + length range.low ≤ width_of_parts columns.now (rising_parts places.now)) }
        ensures memory { IfErr result (λ fault. fault ≡ StoreFault.Memory) }
    {
        let part = KeyPart {
            column,
            descending: false,
        };
        let parts = List::from_vec(vec![in alloc; part]?);
        let at = part_offset(columns, places, column);
        match key_range(alloc, columns, &parts, span) {
            Ok((low, high)) => Ok(PartRange { at, low, high }),
            Err(_) => Err(StoreFault::Memory),
        }
    }

    /// Where a walk begins that is to meet each entry of the range.
    pub fn start(&self, width: u16) -> Entry
        requires narrow { width ≤ MAX_WIDTH }
        requires within { length self.now.low ≤ width }
        ensures { result ≡ start_of_walk width self.now }
    {
        let width = usize::from(width);
        let mut bytes = [0; MAX_WIDTH];
        self.put_start(&mut bytes, width);
        Entry::of(&bytes[..width])
    }

    /// Writes this to the front of `out`, in so many bytes.
    fn put_start(&self, out: &mut [u8], width: usize)
        requires within { length self.now.low ≤ width }
        requires room { width ≤ length out.old }
        ensures { take width out.new ≡ start_of_walk width self.now }
    {
        out.fill(0);
        if self.at != 0 {
            return;
        }
        let low = self.low.bytes();
        out[..low.len()].copy_from_slice(low);
    }

    /// Takes the blocks of the entries of a leaf that are in the range, up to where the walk ends. Says whether it ended.
    pub(crate) fn take_blocks<L: Ledger>(
        &self,
        leaf: &Entries,
        blocks: &mut Vec<u32>,
        entries: &mut Steps<L>,
    ) -> Result<bool, StoreFault>
        requires long { AllByRecursion (λ entry. self.now.at + 4 ≤ length entry) leaf.now }
        ensures blocks { OnOk result (blocks.new.items ≡ blocks.old.items ++ blocks_in_range self.now (entries_until self.now leaf.now)) }
        ensures counted { OnOk result (entries.new ≡ entries.old + length (entries_until self.now leaf.now)) }
        ensures ended { IfOk result (λ ended. ended ≡ true → (rest : List Entry) → entries_until self.now (leaf.now ++ rest) ≡ entries_until self.now leaf.now) }
        ensures goes_on { IfOk result (λ ended. ended ≡ false → (rest : List Entry) → entries_until self.now (leaf.now ++ rest) ≡ entries_until self.now leaf.now ++ entries_until self.now rest) }
        ensures memory { IfErr result (λ fault. fault ≡ StoreFault.Memory) }
    {
        for i in 0..leaf.len() {
            let entry = leaf.at(i);
            if self.ends_at(entry) {
                return Ok(true);
            }
            entries.tick();
            if self.holds(entry) {
                blocks.push(last_block(entry))?;
            }
        }
        Ok(false)
    }
}

impl PartRange {
    /// Whether the part of an entry lies in the range.
    fn holds(&self, entry: &[u8]) -> bool
        requires { self.now.at ≤ length entry.now }
        ensures { result ≡ has_part_in self.now entry.now }
    {
        let part = &entry[self.at..];
        if is_below(part, self.low.bytes()) {
            return false;
        }
        match &self.high {
            Some(high) => is_below(part, high.bytes()),
            None => true,
        }
    }

    /// Whether a walk for the range ends at an entry.
    pub fn ends_at(&self, entry: &[u8]) -> bool
        ensures { result ≡ ends_walk self.now entry.now }
    {
        if self.at != 0 {
            return false;
        }
        match &self.high {
            Some(high) => !is_below(entry, high.bytes()),
            None => false,
        }
    }
}

/// How many bytes stand before the part of a column, at its first place.
fn part_offset(columns: &List<ColumnDef>, places: &List<u8>, column: u8) -> usize
    requires { ArePartsOf columns.now (rising_parts places.now) }
    ensures { result ≡ offset_of columns.now places.now column }
{
    let mut at = 0;
    for place in places.as_slice() {
        if *place == column {
            return at;
        }
        at += usize::from(part_width(columns.at(usize::from(*place)).ty));
    }
    at
}

/// The block that an entry names: its last four bytes.
fn last_block(entry: &[u8]) -> u32
    requires { 4 ≤ length entry.now }
    ensures { result ≡ last_block entry.now }
{
    BigEndian::read_u32(&entry[entry.len() - 4..])
}
