// Many changes of a tree beside a list that says for each number whether its entry should be there.
ghost use Rattle.std.specs.Prelude.{◌≡◌, ◌<◌, false, None};

use crate::numbers::{NUMBERS, Order, block_of, entry_of, number_at};
use crate::reading::lowest;
use entry_tree::Tree;
use extent_map::SpaceNotes;
use mdc_values::Blocks;
use std::alloc::Global;
use std::test::Fail;
use store_api::{Pages, Shape};

// The blocks whose entries a sweep removes.
const FIRST_SWEPT: u32 = 3;

const SECOND_SWEPT: u32 = 10;

/// Adds so many entries.
pub fn add_some<P: Pages>(
    tree: &Tree,
    shape: Shape,
    notes: &mut SpaceNotes,
    pages: &mut P,
    there: &mut [bool],
    order: Order,
    many: usize,
) -> Result<(), Fail>
    requires { (P.state pages.old).ended ≡ false }
    ensures going { (P.state pages.new).ended ≡ false }
    ensures marked { (P.state pages.new).marked ≡ (P.state pages.old).marked }
{
    for i in 0..many.min(NUMBERS) {
        let n = number_at(order, i, NUMBERS);
        let was_there = note(there, n, true)?;
        if tree.add(shape, notes, pages, entry_of(tree, n).bytes())? == was_there {
            return Err("a wrong answer of add")?;
        }
    }
    Ok(())
}

// Notes whether the entry of a number is there now, and answers whether it was.
fn note(there: &mut [bool], n: usize, is_there: bool) -> Result<bool, Fail> {
    if n >= there.len() {
        return Err("no such number")?;
    }
    let was_there = there[n];
    there[n] = is_there;
    Ok(was_there)
}

/// Removes so many entries.
pub fn remove_some<P: Pages>(
    tree: &Tree,
    shape: Shape,
    notes: &mut SpaceNotes,
    pages: &mut P,
    there: &mut [bool],
    order: Order,
    many: usize,
) -> Result<(), Fail>
    requires { (P.state pages.old).ended ≡ false }
    ensures going { (P.state pages.new).ended ≡ false }
    ensures marked { (P.state pages.new).marked ≡ (P.state pages.old).marked }
{
    for i in 0..many.min(NUMBERS) {
        let n = number_at(order, i, NUMBERS);
        let was_there = note(there, n, false)?;
        if tree.remove(shape, notes, pages, entry_of(tree, n).bytes())? != was_there {
            return Err("a wrong answer of remove")?;
        }
    }
    Ok(())
}

/// Removes all entries that name one of two blocks.
pub fn sweep<P: Pages>(
    alloc: Global,
    tree: &Tree,
    shape: Shape,
    notes: &mut SpaceNotes,
    pages: &mut P,
    there: &mut [bool],
) -> Result<(), Fail>
    requires { (P.state pages.old).ended ≡ false }
    ensures going { (P.state pages.new).ended ≡ false }
    ensures marked { (P.state pages.new).marked ≡ (P.state pages.old).marked }
{
    let swept = sweep_tree(tree, shape, notes, pages, &swept_blocks(alloc)?)?;
    if swept != forget_swept(there)? {
        return Err("another number of entries swept")?;
    }
    Ok(())
}

// Sweeps a tree leaf by leaf, and answers how many entries left it.
fn sweep_tree<P: Pages>(
    tree: &Tree,
    shape: Shape,
    notes: &mut SpaceNotes,
    pages: &mut P,
    blocks: &Blocks,
) -> Result<u32, Fail>
    requires { (P.state pages.old).ended ≡ false }
    ensures going { (P.state pages.new).ended ≡ false }
    ensures marked { (P.state pages.new).marked ≡ (P.state pages.old).marked }
{
    let mut removed: u32 = 0;
    let mut bound = lowest(tree);
    for _ in 0..pages.count() {
        let swept = tree.sweep_leaf(shape, notes, pages, bound.bytes(), tree.width - 4, blocks)?;
        removed = removed.wrapping_add(swept.removed);
        match swept.next {
            Some(next) => bound = next,
            None => return Ok(removed),
        }
    }
    Err("more leaves than pages")?
}

// The blocks whose entries a sweep removes.
fn swept_blocks(alloc: Global) -> Result<Blocks, Fail> {
    let mut blocks = Blocks::new(alloc);
    blocks.push(FIRST_SWEPT)?;
    blocks.push(SECOND_SWEPT)?;
    Ok(blocks)
}

// Notes that no entry of those blocks is there, and answers how many were.
fn forget_swept(there: &mut [bool]) -> Result<u32, Fail> {
    let mut many: u32 = 0;
    for n in 0..there.len() {
        if is_swept(block_of(n)) && note(there, n, false)? {
            many = many.wrapping_add(1);
        }
    }
    Ok(many)
}

fn is_swept(block: u32) -> bool {
    block == FIRST_SWEPT || block == SECOND_SWEPT
}
