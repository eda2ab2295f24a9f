// The place of an entry among those of a node.
ghost use Rattle.std.specs.Prelude.{◌≡◌, ◌+◌, ◌<◌, ◌≤◌, false, IsTrue, ◌↔◌, length, get_or, IfSome};
ghost use Rattle.node_page.specs.Entries.{EntriesRise, StandsAt, IsFirstWord, place_in, child_in};
ghost use Rattle.node_page.specs.Looked.{entries_in, children_in, is_leaf_node};

use crate::NodeView;
use crate::order::{compare, first_word};
use std::cmp::Ordering;

impl<'p> NodeView<'p> {
    /// The place of the first entry that isn't below this one, and whether it is this one. Where the entries don't rise
    /// it is some place.
    pub fn find(&self, entry: &[u8]) -> (usize, bool)
        ensures within { result.0 ≤ length (entries_in self.now.node) }
        ensures place { EntriesRise (entries_in self.now.node) → result.0 ≡ place_in entry.now (entries_in self.now.node) }
        ensures here { IsTrue result.1 ↔ StandsAt entry.now result.0 (entries_in self.now.node) }
    {
        // A search of its own for each, so that no step asks which it is.
        match first_word(entry, self.width) {
            Some(first) => self.search(entry, Some(first)),
            None => self.search(entry, None),
        }
    }

    // The same, with the first word of the entry where it is as wide as those of the node and has one.
    #[inline(always)]
    fn search(&self, entry: &[u8], first: Option<u64>) -> (usize, bool)
        requires { IfSome first (IsFirstWord self.now.width entry.now) }
        ensures within { result.0 ≤ length (entries_in self.now.node) }
        ensures place { EntriesRise (entries_in self.now.node) → result.0 ≡ place_in entry.now (entries_in self.now.node) }
        ensures here { IsTrue result.1 ↔ StandsAt entry.now result.0 (entries_in self.now.node) }
    {
        let mut low = 0;
        let mut high = self.len();
        while low < high {
            let middle = low + (high - low) / 2;
            match compare(self.entry(middle), entry, first) {
                Ordering::Less => low = middle + 1,
                Ordering::Equal => return (middle, true),
                Ordering::Greater => high = middle,
            }
        }
        (low, false)
    }

    /// The child of an inner node below which an entry belongs, with its place.
    pub fn child_of(&self, entry: &[u8]) -> (usize, u32)
        requires { is_leaf_node self.now.node ≡ false }
        ensures within { result.0 ≤ length (entries_in self.now.node) }
        ensures place { EntriesRise (entries_in self.now.node) → result.0 ≡ child_in entry.now (entries_in self.now.node) }
        ensures child { result.1 ≡ get_or (children_in self.now.node) result.0 0 }
    {
        // So that the count is known to be small.
        let _ = &self.count;
        let (place, here) = self.find(entry);
        let at = if here { place + 1 } else { place };
        (at, self.child(at))
    }
}
