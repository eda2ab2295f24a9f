// One entry comes into an index, or leaves it.
ghost use Rattle.std.specs.Prelude.{◌≡◌, List, false, length, IfErr, OnOk};
ghost use Rattle.store_api.specs.Causes.{fault_of, store_fault_in};
ghost use Rattle.store_api.specs.RunsOverPages.{RunsOverPages};
ghost use Rattle.extent_map.specs.Damages.{IfFull, store_part_of};
ghost use Rattle.extent_map.specs.Map.{KeepsRoot};
ghost use Rattle.extent_map.specs.declared.kind.Kind.{Kind};
ghost use Rattle.entry_tree.specs.Forest.{Forest};
ghost use Rattle.entry_tree.specs.Pruning.{IsTreeOrMapPage, RemovesEntry};
ghost use Rattle.entry_tree.specs.Standing.{AddsEntry, FindsFull, IsTreeSpace, StandsTree};
ghost use Rattle.block_index.specs.IndexDamage.{BreaksEntering, BreaksLeaving};

use entry_tree::Tree;
use extent_map::{SpaceFault, SpaceNotes};
use store_api::{Damage, Pages, Shape, StoreFault};

/// Enters an entry in an index. Where it is there already, the root of the index is damaged by the rule of its kind.
pub fn enter<P: Pages>(
    tree: &Tree,
    rule: u16,
    shape: Shape,
    notes: &mut SpaceNotes,
    pages: &mut P,
    entry: &[u8],
) -> Result<(), SpaceFault>
    requires width { length entry.now ≡ tree.now.width }
    requires going { (P.state pages.old).ended ≡ false }
    ensures adds { OnOk result ((owners : List Kind) (t : Forest) → StandsTree P.Pages shape pages.old tree.now owners t → AddsEntry P.Pages shape notes.old notes.new pages.old pages.new tree.now entry.now owners t) }
    ensures full { IfErr result (λ fault. IfFull fault (λ cap. (cap ≡ shape.extents)
        × ((owners : List Kind) (t : Forest) → StandsTree P.Pages shape pages.old tree.now owners t → FindsFull P.Pages shape notes.old notes.new pages.old pages.new tree.now entry.now owners t))) }
    ensures root { (owners : List Kind) (t : Forest) → StandsTree P.Pages shape pages.old tree.now owners t → KeepsRoot P.Pages pages.old pages.new }
    ensures runs { RunsOverPages P.Pages (IsTreeSpace P.Pages shape pages.old tree.now) (IsTreeSpace P.Pages shape pages.old tree.now)
        (BreaksEntering P.Pages rule shape pages.old tree.now entry.now) pages.old pages.new (store_fault_in store_part_of result) }
{
    let added = tree.add(shape, notes, pages, entry)?;
    if !added {
        return Err(SpaceFault::Store(misplaced(tree, rule)));
    }
    Ok(())
}

/// Takes an entry out of an index. Where it isn't there, the root of the index is damaged by the rule of its kind.
pub fn leave<P: Pages>(
    tree: &Tree,
    rule: u16,
    shape: Shape,
    notes: &mut SpaceNotes,
    pages: &mut P,
    entry: &[u8],
) -> Result<(), StoreFault>
    requires width { length entry.now ≡ tree.now.width }
    requires going { (P.state pages.old).ended ≡ false }
    ensures removes { OnOk result ((owners : List Kind) (t : Forest) → StandsTree P.Pages shape pages.old tree.now owners t → RemovesEntry P.Pages shape notes.old notes.new pages.new tree.now entry.now owners t) }
    ensures count { length (P.state pages.new).work ≡ length (P.state pages.old).work }
    ensures runs { RunsOverPages P.Pages (IsTreeOrMapPage P.Pages shape pages.old tree.now) (IsTreeOrMapPage P.Pages shape pages.old tree.now)
        (BreaksLeaving P.Pages rule shape pages.old tree.now entry.now) pages.old pages.new (fault_of result) }
{
    let was_there = tree.remove(shape, notes, pages, entry)?;
    if !was_there {
        return Err(misplaced(tree, rule));
    }
    Ok(())
}

/// The fault of an index that has an entry which it shouldn't have, or hasn't one which it should.
fn misplaced(tree: &Tree, rule: u16) -> StoreFault
    ensures { result ≡ StoreFault.Damaged (record { page = tree.now.root; rule = rule }) }
{
    StoreFault::Damaged(Damage {
        page: tree.root,
        rule,
    })
}
