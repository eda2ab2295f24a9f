// What a tree and the pages of a store hold.
ghost use Rattle.std.specs.Prelude.{◌≡◌, false, None, length};

use crate::numbers::entry_of;
use entry_tree::{Entries, Entry, Leaf, MAX_WIDTH, Tree};
use extent_map::{Kind, kind_of};
use std::alloc::{AllocError, Global};
use std::test::Fail;
use store_api::{Page, Pages, Shape};

/// A page of the work.
pub fn page_of<P: Pages>(pages: &mut P, p: u32) -> Result<Page, Fail>
    requires { (P.state pages.old).ended ≡ false }
    ensures going { (P.state pages.new).ended ≡ false }
    ensures marked { (P.state pages.new).marked ≡ (P.state pages.old).marked }
    ensures work { (P.state pages.new).work ≡ (P.state pages.old).work }
{
    if p >= pages.count() {
        return Err("no such page")?;
    }
    pages.fetch(p)?;
    Ok(*pages.page())
}

/// All pages of the work.
pub fn all_pages<P: Pages>(alloc: Global, pages: &mut P) -> Result<Vec<Page>, Fail>
    requires { (P.state pages.old).ended ≡ false }
    ensures going { (P.state pages.new).ended ≡ false }
    ensures marked { (P.state pages.new).marked ≡ (P.state pages.old).marked }
{
    let mut all = Vec::new(alloc);
    for p in 0..pages.count() {
        all.push(page_of(pages, p)?)?;
    }
    Ok(all)
}

/// How many pages of trees are used.
pub fn used_pages<P: Pages>(shape: Shape, pages: &mut P) -> Result<u32, Fail>
    requires { (P.state pages.old).ended ≡ false }
    ensures going { (P.state pages.new).ended ≡ false }
    ensures marked { (P.state pages.new).marked ≡ (P.state pages.old).marked }
{
    let mut used: u32 = 0;
    for e in 0..shape.extents {
        used = used.wrapping_add(used_in(kind_of(shape, pages, e)?));
    }
    Ok(used)
}

// How many pages of an extent are used by trees.
fn used_in(kind: Kind) -> u32 {
    match kind {
        Kind::Index(used) => used.count_ones(),
        Kind::Free | Kind::Block(_) => 0,
    }
}

/// The entries of a tree one after another, and in how many leaves they are.
#[derive(Drop)]
pub struct Found {
    pub bytes: Vec<u8>,
    pub leaves: u32,
}

/// Reads a whole tree.
pub fn read_all<P: Pages>(alloc: Global, tree: &Tree, pages: &mut P) -> Result<Found, Fail>
    requires { (P.state pages.old).ended ≡ false }
    ensures going { (P.state pages.new).ended ≡ false }
    ensures marked { (P.state pages.new).marked ≡ (P.state pages.old).marked }
{
    let mut bytes = Vec::new(alloc);
    let mut bound = lowest(tree);
    for leaves in 0..pages.count() {
        let Leaf { entries, next } = tree.leaf_from(pages, bound.bytes())?;
        append(&mut bytes, &entries)?;
        match next {
            Some(next) => bound = next,
            None => {
                return Ok(Found {
                    bytes,
                    leaves: leaves + 1,
                });
            }
        }
    }
    Err("more leaves than pages")?
}

/// The lowest byte string of a tree's width.
pub fn lowest(tree: &Tree) -> Entry
    ensures { length result ≡ tree.now.width }
{
    let zeros = [0; MAX_WIDTH];
    Entry::of(&zeros[..usize::from(tree.width)])
}

// Puts entries behind those before.
fn append(bytes: &mut Vec<u8>, entries: &Entries) -> Result<(), AllocError> {
    for i in 0..entries.len() {
        bytes.extend_from_slice(entries.at(i))?;
    }
    Ok(())
}

/// The entries of the numbers that are there, one after another.
pub fn expected(alloc: Global, tree: &Tree, there: &[bool]) -> Result<Vec<u8>, AllocError> {
    let mut bytes = Vec::new(alloc);
    for (n, is_there) in there.iter().enumerate() {
        if *is_there {
            bytes.extend_from_slice(entry_of(tree, n).bytes())?;
        }
    }
    Ok(bytes)
}
