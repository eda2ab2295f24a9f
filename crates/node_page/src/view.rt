// A page seen as a node, by a look at its head.
ghost use Rattle.std.specs.Prelude.{◌≡◌, ◌+◌, ◌*◌, ◌<◌, ◌≤◌, ℕ, List, [], true, false, length, get_or, IfSome};
ghost use Rattle.mdc_words.specs.ByteOrder.{Entry};
ghost use Rattle.node_page.specs.Node.{node_of, stated_entries, is_full};
ghost use Rattle.node_page.specs.Node.Node.{LeafNode, InnerNode};
ghost use Rattle.node_page.specs.Looked.{looked, seen_node, entries_in, children_in, is_leaf_node, fork_width, item_width};

use crate::slots::{HEAD_BYTES, INNER_MARK, LEAF_MARK, fork_step, number_at, short_at, slot_at};
use std::marker::Model;
use store_api::Page;
use store_api::layout::PAGE_BYTES;

/// A node in a page, lent. What it shows is what the page's fields say.
#[derive(Debug, Drop)]
pub struct NodeView<'p> {
    page: &'p Page,
    // the bytes of an entry, and how far entries stand apart
    pub(crate) width: usize,
    step: usize,
    pub(crate) count: usize,
    leaf: bool,
}

impl<'p> Model for NodeView<'p> {
    ghost use Rattle.node_page.specs.Looked.{SeenNode, seen_node};
    ghost use Rattle.node_page.specs.Views.{ViewFits, node_seen};

    ghost Value = { SeenNode };

    ghost view = { λ v. seen_node v.width (node_seen v.leaf v.width v.count v.page.now) };

    ghost invariant = { λ v. ViewFits v.width v.step v.count v.leaf };
}

impl<'p> NodeView<'p> {
    /// Looks at the head of a page: the mark, the width, the number of entries. None where it isn't that of a node of
    /// this width, or states more entries than fit.
    pub fn look(page: &'p Page, width: u16) -> Option<NodeView<'p>>
        ensures seen { result ≡ looked width page.now }
        ensures leaf { (entries : List Entry) → node_of width page.now ≡ LeafNode entries → result ≡ Some (seen_node width (LeafNode entries)) }
        ensures inner { (separators : List Entry) (children : List ℕ) → node_of width page.now ≡ InnerNode separators children → result ≡ Some (seen_node width (InnerNode separators children)) }
        ensures width { IfSome result (λ view. view.width ≡ width) }
        ensures count { IfSome result (λ view. length (entries_in view.node) ≡ stated_entries page.now) }
        ensures fits { IfSome result (λ view. stated_entries page.now * item_width width view.node ≤ 4080) }
    {
        NodeView::of_head(page, width)
    }

    // What the fields of a head say.
    fn of_head(page: &'p Page, width: u16) -> Option<NodeView<'p>>
        ensures { result ≡ looked width page.now }
    {
        let count = usize::from(short_at(page, 4));
        let leaf = page[0] == LEAF_MARK;
        if short_at(page, 2) != width || !(leaf || page[0] == INNER_MARK && count > 0) {
            return None;
        }
        let step = if leaf {
            usize::from(width)
        } else {
            fork_step(width)
        };
        let width = usize::from(width);
        if count * step > PAGE_BYTES - HEAD_BYTES {
            return None;
        }
        Some(NodeView {
            page,
            width,
            step,
            count,
            leaf,
        })
    }

    /// Whether it is a leaf.
    pub fn is_leaf(&self) -> bool
        ensures leaf { result ≡ is_leaf_node self.now.node }
        ensures width { result ≡ true → item_width self.now.width self.now.node ≡ self.now.width }
        ensures fork { result ≡ false → item_width self.now.width self.now.node ≡ fork_width self.now.width }
    {
        self.leaf
    }

    /// How many entries a leaf has, or separators an inner node.
    pub fn len(&self) -> usize
        ensures { result ≡ length (entries_in self.now.node) }
    {
        self.count
    }

    /// Whether there is no room for one entry more.
    pub fn is_full(&self) -> bool
        ensures full { 0 < self.now.width → result ≡ is_full self.now.width self.now.node }
        ensures room { result ≡ false → (length (entries_in self.now.node) + 1) * item_width self.now.width self.now.node ≤ 4080 }
    {
        (self.count + 1) * self.step > PAGE_BYTES - HEAD_BYTES
    }

    /// Lends an entry of a leaf, or a separator of an inner node.
    pub fn entry(&self, i: usize) -> &'p [u8]
        requires { i < length (entries_in self.now.node) }
        ensures bytes { result.now ≡ get_or (entries_in self.now.node) i [] }
        ensures width { length result.now ≡ self.now.width }
    {
        let at = slot_at(i, self.step);
        let page = self.page;
        let bytes = &page[..];
        &bytes[at..at + self.width]
    }

    /// The page of a child of an inner node, of which it has one more than separators.
    pub fn child(&self, i: usize) -> u32
        requires inner { is_leaf_node self.now.node ≡ false }
        requires within { i ≤ length (entries_in self.now.node) }
        ensures { result ≡ get_or (children_in self.now.node) i 0 }
    {
        if i == 0 {
            return number_at(self.page, 8);
        }
        number_at(self.page, slot_at(i - 1, self.step) + self.width)
    }
}
