// Rule 4: the trees.
ghost use Rattle.std.specs.Prelude.{◌≡◌, ◌<◌, ◌≤◌, ◌+◌, ◌∷◌, [], false, IfOk, IfSome, IsTrue, List, Some, length, slice_get};
ghost use Rattle.store_api.specs.Causes.{NoDamage, fault_of};
ghost use Rattle.store_api.specs.Frame.{NoPage};
ghost use Rattle.store_api.specs.RunsOverPages.{RunsOverPages};
ghost use Rattle.store_api.specs.declared.shape.Shape.{Shape};
ghost use Rattle.stored_catalog.specs.StoredDefinitions.{AreWithinLimits};
ghost use Rattle.extent_map.specs.declared.kind.Kind.{Kind};
ghost use Rattle.mdc_ast.specs.TableLimits.{IsTableDef};
ghost use Rattle.table_trees.specs.TableTrees.{place_of_tree, tree_places};
ghost use Rattle.file_check.specs.Known.{HasDefinitions};
ghost use Rattle.file_check.specs.Looking.{AnyPage, UnlessTold};
ghost use Rattle.file_check.specs.TreeMarks.{AreMarks};
ghost use Rattle.file_check.specs.TreesJudged.{JudgesPlaces, JudgesTrees, most_trees, places_of_def};

use crate::lowest::lower;
use crate::tree_marks::TreeMarks;
use crate::tree_walk::judge_tree;
use entry_tree::Tree;
use mdc_ast::TableDef;
use mdc_sound::definitions_have_their_trees;
use std::alloc::Global;
use store_api::{Pages, Shape, StoreFault};
use table_trees::{block_index_tree, block_map_tree, record_tree};

/// How many trees a table has in front of the indexes of its dimensions: its block map and its composite index.
const BEFORE_DIMENSIONS: usize = 2;

/// What judging the trees answers.
#[derive(Debug, Drop)]
pub(crate) struct TreesSeen {
    /// The lowest root at which no tree stands, if there is one.
    pub(crate) broken: Option<u32>,
    /// In how many trees each page is. Where a root is broken, it says nothing.
    pub(crate) times: Vec<u16>,
}

/// Judges the trees of all tables: at each root stands one of its width, in which no page is twice, and each leaf of which but an
/// empty root holds an entry.
pub(crate) fn judge_trees<P: Pages>(
    alloc: Global,
    pages: &mut P,
    defs: &[Option<TableDef>],
) -> Result<TreesSeen, StoreFault>
    requires limits { AreWithinLimits defs.now }
    requires going { (P.state pages.old).ended ≡ false }
    ensures judged { IfOk result (λ seen. IsTrue (P.state pages.old).is_told → (shape : Shape) (owners : List Kind) → HasDefinitions shape (P.state pages.old).work owners defs.now
        → JudgesTrees shape (P.state pages.old).work owners defs.now seen) }
    ensures same { (P.state pages.new).work ≡ (P.state pages.old).work }
    ensures runs { RunsOverPages P.Pages NoPage AnyPage (UnlessTold P.Pages pages.old) pages.old pages.new (fault_of result) }
{
    let mut marks = TreeMarks::new(alloc, pages.count())?;
    let mut broken = None;
    for def in defs {
        let here = judge_trees_of(alloc, pages, def, &mut marks)?;
        broken = lower(broken, here);
    }
    Ok(TreesSeen {
        broken,
        times: marks.times,
    })
}

/// Judges the trees of a table, if there is one.
fn judge_trees_of<P: Pages>(
    alloc: Global,
    pages: &mut P,
    def: &Option<TableDef>,
    marks: &mut TreeMarks,
) -> Result<Option<u32>, StoreFault>
    requires defined { IfSome def.now (λ table. IsTableDef table.number table) }
    requires going { (P.state pages.old).ended ≡ false }
    requires marks { AreMarks (length (P.state pages.old).work) marks.old }
    requires few { marks.old.tree + most_trees < 65536 }
    ensures marks { AreMarks (length (P.state pages.old).work) marks.new }
    ensures few { marks.new.tree ≤ marks.old.tree + most_trees }
    ensures judged { IfOk result (λ found. IsTrue (P.state pages.old).is_told → JudgesPlaces (P.state pages.old).work (places_of_def def.now) marks.old marks.new found) }
    ensures same { (P.state pages.new).work ≡ (P.state pages.old).work }
    ensures runs { RunsOverPages P.Pages NoPage AnyPage NoDamage pages.old pages.new (fault_of result) }
{
    match def {
        None => Ok(None),
        Some(def) => judge_table(alloc, pages, def, marks),
    }
}

/// Judges the trees of a table.
fn judge_table<P: Pages>(
    alloc: Global,
    pages: &mut P,
    def: &TableDef,
    marks: &mut TreeMarks,
) -> Result<Option<u32>, StoreFault>
    requires defined { IsTableDef def.now.number def.now }
    requires going { (P.state pages.old).ended ≡ false }
    requires marks { AreMarks (length (P.state pages.old).work) marks.old }
    requires few { marks.old.tree + most_trees < 65536 }
    ensures marks { AreMarks (length (P.state pages.old).work) marks.new }
    ensures few { marks.new.tree ≤ marks.old.tree + most_trees }
    ensures judged { IfOk result (λ found. IsTrue (P.state pages.old).is_told → JudgesPlaces (P.state pages.old).work (tree_places def.now) marks.old marks.new found) }
    ensures same { (P.state pages.new).work ≡ (P.state pages.old).work }
    ensures runs { RunsOverPages P.Pages NoPage AnyPage NoDamage pages.old pages.new (fault_of result) }
{
    let mut lowest = None;
    for i in 0..tree_count(def) {
        let tree = tree_of(alloc, def, i);
        let here = judge_place(alloc, pages, &tree, marks)?;
        lowest = lower(lowest, here);
    }
    Ok(lowest)
}

/// Judges a tree by its root.
fn judge_place<P: Pages>(
    alloc: Global,
    pages: &mut P,
    tree: &Tree,
    marks: &mut TreeMarks,
) -> Result<Option<u32>, StoreFault>
    requires going { (P.state pages.old).ended ≡ false }
    requires marks { AreMarks (length (P.state pages.old).work) marks.old }
    requires few { marks.old.tree < 65535 }
    ensures marks { AreMarks (length (P.state pages.old).work) marks.new }
    ensures next { marks.new.tree ≡ marks.old.tree + 1 }
    ensures judged { IfOk result (λ found. IsTrue (P.state pages.old).is_told
        → JudgesPlaces (P.state pages.old).work (place_of_tree tree.now ∷ []) marks.old marks.new found) }
    ensures same { (P.state pages.new).work ≡ (P.state pages.old).work }
    ensures runs { RunsOverPages P.Pages NoPage AnyPage NoDamage pages.old pages.new (fault_of result) }
{
    if judge_tree(alloc, pages, tree, marks)? {
        return Ok(None);
    }
    Ok(Some(tree.root))
}

/// How many trees a table has.
fn tree_count(def: &TableDef) -> usize
    requires defined { IsTableDef def.now.number def.now }
    ensures count { result ≡ length (tree_places def.now) }
    ensures few { result ≤ most_trees }
{
    BEFORE_DIMENSIONS + def.dims.len() + def.indexes.len()
}

/// Tree i of a table: its block map, then its block indexes, and then its record indexes.
fn tree_of(alloc: Global, def: &TableDef, i: usize) -> Tree
    requires defined { IsTableDef def.now.number def.now }
    requires there { i < length (tree_places def.now) }
    ensures { slice_get (tree_places def.now) i ≡ Some (place_of_tree result) }
{
    definitions_have_their_trees();
    if i == 0 {
        return block_map_tree(alloc, def);
    }
    let record_indexes = BEFORE_DIMENSIONS + def.dims.len();
    if i < record_indexes {
        return block_index_tree(alloc, def, i - 1);
    }
    record_tree(alloc, def, i - record_indexes)
}
