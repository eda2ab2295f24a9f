// A tree of width 7 on 16 extents of two pages: which pages it takes.
ghost use Rattle.std.specs.Prelude.{◌≡◌, ◌<◌, false};

use crate::changes::add_some;
use crate::fresh::fresh_store;
use crate::numbers::{NUMBERS, Order, entry_of};
use crate::stores::extents_of;
use entry_tree::Tree;
use extent_map::{Kind, SpaceNotes, kind_of};
use std::alloc::Global;
use std::test::Fail;
use store_api::{Pages, Shape};

// What the first two extents are.
fn kinds<P: Pages>(shape: Shape, pages: &mut P) -> Result<[Kind; 2], Fail>
    requires going { (P.state pages.old).ended ≡ false }
    requires two { 1 < shape.extents }
    ensures { (P.state pages.new).ended ≡ false }
{
    Ok([kind_of(shape, pages, 0)?, kind_of(shape, pages, 1)?])
}

// What the first two extents are once a tree was made, once it has 582 entries, and once it has one more.
fn kinds_of_growth<P: Pages>(
    alloc: Global,
    shape: Shape,
    notes: &mut SpaceNotes,
    pages: &mut P,
) -> Result<[[Kind; 2]; 3], Fail>
    requires going { (P.state pages.old).ended ≡ false }
    requires two { 1 < shape.extents }
{
    let tree = Tree::make(alloc, shape, notes, pages, 7)?;
    let mut all = vec![in alloc; false; NUMBERS]?;
    let made = kinds(shape, pages)?;
    add_some(&tree, shape, notes, pages, &mut all, Order::Shuffled, 582)?;
    let full = kinds(shape, pages)?;
    add_some(&tree, shape, notes, pages, &mut all, Order::Shuffled, 583)?;
    Ok([made, full, kinds(shape, pages)?])
}

// Whether an entry leaves an empty tree.
fn is_removed<P: Pages>(
    alloc: Global,
    shape: Shape,
    notes: &mut SpaceNotes,
    pages: &mut P,
) -> Result<bool, Fail>
    requires { (P.state pages.old).ended ≡ false }
{
    let tree = Tree::make(alloc, shape, notes, pages, 7)?;
    Ok(tree.remove(shape, notes, pages, entry_of(&tree, 9).bytes())?)
}

#[test]
fn a_tree_takes_a_page_and_two_more_once_it_is_full(rt: HostRuntime) -> Result<(), Fail> {
    let kinds = kinds_of_growth(
        rt.alloc(),
        extents_of(16)?,
        &mut SpaceNotes::new(),
        &mut fresh_store(rt.alloc())?,
    )?;
    let one = [Kind::Index(1), Kind::Free];
    assert_eq!(rt; kinds, [one, one, [Kind::Index(3), Kind::Index(1)]]);
    Ok(())
}

#[test]
fn an_entry_that_is_not_there_is_not_removed(rt: HostRuntime) -> Result<(), Fail> {
    let shape = extents_of(16)?;
    let mut notes = SpaceNotes::new();
    assert!(rt; !is_removed(rt.alloc(), shape, &mut notes, &mut fresh_store(rt.alloc())?)?);
    Ok(())
}
