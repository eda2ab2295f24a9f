// Nodes of a tree that are changed in place, and cut in two.
ghost use Rattle.std.specs.Prelude.{◌≡◌, ◌≢◌, ◌+◌, ◌<◌, ℕ, List, ◌∷◌, ◌++◌, take, drop, length, true, false, IsTrue, OnOk};
ghost use Rattle.mdc_words.specs.ByteOrder.{Entry};
ghost use Rattle.node_page.specs.Node.Node.{LeafNode, InnerNode};
ghost use Rattle.store_api.specs.Frame.{OnlyPage};
ghost use Rattle.store_api.specs.Causes.{fault_of, NoDamage};
ghost use Rattle.store_api.specs.RunsOverPages.{RunsOverPages};
ghost use Rattle.entry_tree.specs.HeldTrees.{nodes_in};
ghost use Rattle.entry_tree.specs.TreeChanges.{IsPut, IsLeafCut, IsInnerCut, IsRaised};
ghost use Rattle.entry_tree.specs.Writing.{EitherPage, BreaksWhere, IsLeafWith, IsInnerWith};

use crate::Tree;
use crate::nodes::{insert_entry, insert_separator, split_entries, split_separators};
use node_page::make_inner;
use store_api::{Pages, StoreFault, blank_page, bring};

/// Puts an entry in at a place of a leaf with room for it.
pub(crate) fn put_in_leaf<P: Pages>(
    tree: &Tree,
    pages: &mut P,
    page: u32,
    at: usize,
    entry: &[u8],
) -> Result<(), StoreFault>
    requires width { length entry.now ≡ tree.now.width }
    requires going { (P.state pages.old).ended ≡ false }
    requires within { page < length (P.state pages.old).work }
    ensures put { OnOk result ((items : List Entry) → nodes_in tree.now.width (P.state pages.old) page ≡ LeafNode items
        → IsPut (nodes_in tree.now.width (P.state pages.old)) (nodes_in tree.now.width (P.state pages.new)) page (LeafNode (take at items ++ entry.now ∷ drop at items))) }
    ensures count { length (P.state pages.new).work ≡ length (P.state pages.old).work }
    ensures runs { RunsOverPages P.Pages (OnlyPage page) (OnlyPage page) (BreaksWhere tree.now (IsLeafWith tree.now.width (nodes_in tree.now.width (P.state pages.old) page) at false)) pages.old pages.new (fault_of result) }
{
    if !insert_entry(pages.edit(page)?, tree.width, at, entry) {
        return Err(tree.damaged());
    }
    Ok(())
}

/// Puts an entry in at a place of a full leaf, and cuts it in two: the upper half goes to another page. Writes the first
/// entry of that half.
pub(crate) fn cut_leaf<P: Pages>(
    tree: &Tree,
    pages: &mut P,
    page: u32,
    at: usize,
    entry: &[u8],
    other: u32,
    separator: &mut [u8],
) -> Result<(), StoreFault>
    requires width { length entry.now ≡ tree.now.width }
    requires separator { length separator.old ≡ tree.now.width }
    requires going { (P.state pages.old).ended ≡ false }
    requires within { page < length (P.state pages.old).work }
    requires other { other < length (P.state pages.old).work }
    ensures cut { OnOk result ((items : List Entry) → nodes_in tree.now.width (P.state pages.old) page ≡ LeafNode items → page ≢ other
        → IsLeafCut tree.now.width (nodes_in tree.now.width (P.state pages.old)) (nodes_in tree.now.width (P.state pages.new)) page (take at items ++ entry.now ∷ drop at items) other separator.new) }
    ensures count { length (P.state pages.new).work ≡ length (P.state pages.old).work }
    ensures runs { RunsOverPages P.Pages (EitherPage page other) (EitherPage page other) (BreaksWhere tree.now (IsLeafWith tree.now.width (nodes_in tree.now.width (P.state pages.old) page) at true)) pages.old pages.new (fault_of result) }
{
    let mut upper = *blank_page();
    if !split_entries(
        pages.edit(page)?,
        tree.width,
        at,
        entry,
        &mut upper,
        separator,
    ) {
        return Err(tree.damaged());
    }
    pages.write(other, &upper)?;
    Ok(())
}

/// Puts a separator and the child behind it in at a place of an inner node with room for them.
pub(crate) fn put_in_inner<P: Pages>(
    tree: &Tree,
    pages: &mut P,
    page: u32,
    at: usize,
    separator: &[u8],
    child: u32,
) -> Result<(), StoreFault>
    requires separator { length separator.now ≡ tree.now.width }
    requires going { (P.state pages.old).ended ≡ false }
    requires within { page < length (P.state pages.old).work }
    ensures put { OnOk result ((seps : List Entry) (children : List ℕ) → nodes_in tree.now.width (P.state pages.old) page ≡ InnerNode seps children
        → IsPut (nodes_in tree.now.width (P.state pages.old)) (nodes_in tree.now.width (P.state pages.new)) page
        (InnerNode (take at seps ++ separator.now ∷ drop at seps) (take (at + 1) children ++ child ∷ drop (at + 1) children))) }
    ensures count { length (P.state pages.new).work ≡ length (P.state pages.old).work }
    ensures runs { RunsOverPages P.Pages (OnlyPage page) (OnlyPage page) (BreaksWhere tree.now (IsInnerWith tree.now.width (nodes_in tree.now.width (P.state pages.old) page) at false)) pages.old pages.new (fault_of result) }
{
    if !insert_separator(pages.edit(page)?, tree.width, at, separator, child) {
        return Err(tree.damaged());
    }
    Ok(())
}

/// Puts a separator and the child behind it in at a place of a full inner node, and cuts it in two: the upper half goes to
/// another page. Writes the separator between the two over the one that was put in.
pub(crate) fn cut_inner<P: Pages>(
    tree: &Tree,
    pages: &mut P,
    page: u32,
    at: usize,
    separator: &mut [u8],
    child: u32,
    other: u32,
) -> Result<(), StoreFault>
    requires separator { length separator.old ≡ tree.now.width }
    requires going { (P.state pages.old).ended ≡ false }
    requires within { page < length (P.state pages.old).work }
    requires other { other < length (P.state pages.old).work }
    ensures cut { OnOk result ((seps : List Entry) (children : List ℕ) → nodes_in tree.now.width (P.state pages.old) page ≡ InnerNode seps children → page ≢ other
        → IsInnerCut (nodes_in tree.now.width (P.state pages.old)) (nodes_in tree.now.width (P.state pages.new)) page at separator.old child seps children other separator.new) }
    ensures count { length (P.state pages.new).work ≡ length (P.state pages.old).work }
    ensures runs { RunsOverPages P.Pages (EitherPage page other) (EitherPage page other) (BreaksWhere tree.now (IsInnerWith tree.now.width (nodes_in tree.now.width (P.state pages.old) page) at true)) pages.old pages.new (fault_of result) }
{
    let mut upper = *blank_page();
    if !split_separators(
        pages.edit(page)?,
        tree.width,
        at,
        separator,
        child,
        &mut upper,
    ) {
        return Err(tree.damaged());
    }
    pages.write(other, &upper)?;
    Ok(())
}

/// Gives what the root holds to another page, and makes it the node over that page and one more.
pub(crate) fn raise<P: Pages>(
    tree: &Tree,
    pages: &mut P,
    separator: &[u8],
    second: u32,
    first: u32,
) -> Result<(), StoreFault>
    requires separator { length separator.now ≡ tree.now.width }
    requires going { (P.state pages.old).ended ≡ false }
    requires within { tree.now.root < length (P.state pages.old).work }
    requires first { first < length (P.state pages.old).work }
    ensures raised { OnOk result (IsTrue (P.state pages.old).is_told → tree.now.root ≢ first → IsRaised (nodes_in tree.now.width (P.state pages.old)) (nodes_in tree.now.width (P.state pages.new)) tree.now.root separator.now second first) }
    ensures count { length (P.state pages.new).work ≡ length (P.state pages.old).work }
    ensures runs { RunsOverPages P.Pages (EitherPage tree.now.root first) (EitherPage tree.now.root first) NoDamage pages.old pages.new (fault_of result) }
{
    bring(pages, tree.root)?;
    let moved = *pages.page();
    pages.write(first, &moved)?;
    make_inner(pages.edit(tree.root)?, tree.width, first, separator, second);
    Ok(())
}
