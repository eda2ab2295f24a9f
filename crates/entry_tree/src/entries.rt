// Byte strings of one width, one or a list.
ghost use Rattle.std.specs.Prelude.{◌≡◌, ◌+◌, ◌*◌, ◌<◌, ◌≤◌, ◌++◌, ◌∷◌, [], ℕ, List, length, take, vec_len, get_or, OnOk, OnErr};
ghost use Rattle.mdc_words.specs.ByteOrder.{Entry};
ghost use Rattle.entry_tree.specs.Entries.{strings_in, AreOfWidth, LiesAboveLast};

use crate::tree::MAX_WIDTH;
use std::alloc::{AllocError, Global};
use std::marker::Model;

/// One byte string, of at most as many bytes as an entry has. It takes no memory of its own.
#[derive(Drop)]
pub struct Entry {
    all: [u8; MAX_WIDTH],
    len: usize,
}

impl Model for Entry {
    ghost Value = { List ℕ };

    ghost view = { λ entry. take entry.len entry.all };

    ghost invariant = { λ entry. entry.len ≤ 134 };
}

impl Entry {
    /// The byte string.
    pub fn of(bytes: &[u8]) -> Entry
        requires { length bytes.now ≤ MAX_WIDTH }
        ensures { result ≡ bytes.now }
    {
        let len = bytes.len();
        let mut all = [0; MAX_WIDTH];
        all[..len].copy_from_slice(bytes);
        Entry { all, len }
    }

    /// Lends its bytes.
    pub fn bytes(&self) -> &[u8]
        ensures { result.now ≡ self.now }
    {
        &self.all[..self.len]
    }
}

/// A list of byte strings of one width, each above the one before, in one piece of memory. Where it was read from a tree
/// whose pages are not told, or are damaged, its order is that of the pages.
#[derive(Drop)]
pub struct Entries {
    width: usize,
    count: usize,
    bytes: Vec<u8>,
}

impl Model for Entries {
    ghost Value = { List Entry };

    ghost view = { λ entries. strings_in entries.width entries.count entries.bytes.items };

    ghost invariant = { λ entries. (vec_len entries.bytes ≡ entries.count * entries.width) × (entries.count ≤ vec_len entries.bytes) };
}

impl Entries {
    /// An empty list.
    pub fn new(alloc: Global) -> Entries
        ensures { result ≡ [] }
    {
        Entries {
            width: 0,
            count: 0,
            bytes: Vec::new(alloc),
        }
    }

    /// How many byte strings there are.
    pub fn len(&self) -> usize
        ensures { result ≡ length self.now }
    {
        self.count
    }

    /// Lends the byte string at a place.
    pub fn at(&self, i: usize) -> &[u8]
        requires { i < length self.now }
        ensures { result.now ≡ get_or self.now i [] }
    {
        let bytes = &self.bytes[..];
        let from = i * self.width;
        &bytes[from..from + self.width]
    }

    /// Adds a byte string, which lies above the last one and is as long as the others. After a fault the list is as it was.
    pub fn push(&mut self, entry: &[u8]) -> Result<(), AllocError>
        requires some { 0 < length entry.now }
        requires width { AreOfWidth (length entry.now) self.old }
        requires above { LiesAboveLast entry.now self.old }
        ensures ok { OnOk result (self.new ≡ self.old ++ entry.now ∷ []) }
        ensures err { OnErr result (self.new ≡ self.old) }
    {
        self.bytes.extend_from_slice(entry)?;
        self.width = entry.len();
        self.count += 1;
        Ok(())
    }

    /// Lets all byte strings go, and keeps the memory.
    pub fn clear(&mut self)
        ensures { self.new ≡ [] }
    {
        self.count = 0;
        self.bytes.clear();
    }

    /// Takes n byte strings of a width, which lie behind one another, in place of all that it has. After a fault it is empty.
    pub(crate) fn fill(&mut self, width: usize, n: usize, bytes: &[u8]) -> Result<(), AllocError>
        requires some { 0 < width }
        requires whole { length bytes.now ≡ n * width }
        ensures ok { OnOk result (self.new ≡ strings_in width n bytes.now) }
        ensures err { OnErr result (self.new ≡ []) }
    {
        self.count = 0;
        self.bytes.clear();
        self.bytes.extend_from_slice(bytes)?;
        self.width = width;
        self.count = n;
        Ok(())
    }
}

/// Some entries of a tree from a bound on, and the bound at which the rest begins.
#[derive(Drop)]
pub struct Leaf {
    /// The entries.
    pub entries: Entries,
    /// The bound at which the rest begins. None where there is no rest.
    pub next: Option<Entry>,
}

impl Leaf {
    /// A leaf without entries, behind which nothing lies.
    pub fn new(alloc: Global) -> Leaf
        ensures entries { result.entries ≡ [] }
    {
        Leaf {
            entries: Entries::new(alloc),
            next: None,
        }
    }
}
