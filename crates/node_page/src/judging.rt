// A page judged whole.
ghost use Rattle.std.specs.Prelude.{◌≡◌, ◌*◌, ◌<◌, ◌≤◌, IsTrue, IfSome, ◌↔◌, Some};
ghost use Rattle.node_page.specs.Node.{Node};
ghost use Rattle.node_page.specs.Entries.{EntriesRise};
ghost use Rattle.node_page.specs.Looked.{IsNode, entries_in, seen_node};
ghost use Rattle.node_page.specs.Views.{IsWritten, stated_head, step_of};

use crate::NodeView;
use crate::order::is_below;
use crate::slots::{HEAD_BYTES, INNER_MARK, LEAF_MARK, fork_step, head_of, number_at, slot_at};
use store_api::{Page, blank_page};

impl<'p> NodeView<'p> {
    /// Reads a page whole: None exactly where its bytes aren't a node of this width, with entries that rise.
    pub fn read(page: &'p Page, width: u16) -> Option<NodeView<'p>>
        ensures only { IfSome result (λ view. (view.width ≡ width) × IsNode width page.now view.node) }
        ensures all { (node : Node) → IsNode width page.now node → result ≡ Some (seen_node width node) }
    {
        let view = NodeView::look(page, width)?;
        if !is_written(page, width, view.is_leaf(), view.len()) {
            return None;
        }
        if !view.rises() {
            return None;
        }
        Some(view)
    }

    // Whether each entry is below the next.
    fn rises(&self) -> bool
        ensures { IsTrue result ↔ EntriesRise (entries_in self.now.node) }
    {
        for i in 1..self.len() {
            if !is_below(self.entry(i - 1), self.entry(i)) {
                return false;
            }
        }
        true
    }
}

// Whether a page has the head that its fields say, and zeros behind its entries.
fn is_written(page: &Page, width: u16, leaf: bool, count: usize) -> bool
    requires few { count < 65536 }
    requires fits { count * step_of leaf width ≤ 4080 }
    ensures { IsTrue result ↔ IsWritten width leaf count page.now }
{
    let end = slot_at(count, step_for(leaf, width));
    let head = head_stated(page, width, leaf, count as u16);
    page[..HEAD_BYTES] == head[..] && page[end..] == blank_page()[end..]
}

// How far entries stand apart.
fn step_for(leaf: bool, width: u16) -> usize
    ensures { result ≡ step_of leaf width }
{
    if leaf {
        usize::from(width)
    } else {
        fork_step(width)
    }
}

// The head that the fields of a page say.
fn head_stated(page: &Page, width: u16, leaf: bool, count: u16) -> [u8; 16]
    ensures { result ≡ stated_head width leaf count page.now }
{
    if leaf {
        head_of(LEAF_MARK, width, count, 0)
    } else {
        head_of(INNER_MARK, width, count, number_at(page, 8))
    }
}
