// Rule 3: the roots of a table's trees.
ghost use Rattle.std.specs.Prelude.{◌≡◌, ◌<◌, false, IfErr, IfOk, IsTrue, List, MatchBool};
ghost use Rattle.store_api.specs.Causes.{fault_of};
ghost use Rattle.store_api.specs.Frame.{NoPage};
ghost use Rattle.store_api.specs.RunsOverPages.{RunsOverPages};
ghost use Rattle.extent_map.specs.Owners.{IsExtentPage, extent_of};
ghost use Rattle.extent_map.specs.declared.kind.Kind.{Kind};
ghost use Rattle.mdc_sound.specs.SpaceRules.{IsIndexKind, IsMapSound};
ghost use Rattle.file_check.specs.Looking.{AnyPage, Unless};
ghost use Rattle.file_check.specs.TablePagesJudged.{HasOwners, IsNoRootPage, IsRootPage, JudgesRoots, tree_roots};

use extent_map::{Kind, first_page, has_page, kind_of};
use mdc_ast::TableDef;
use std::alloc::Global;
use store_api::{Pages, Shape, StoreFault};

/// Whether each root of a table is a page of an extent of trees.
pub(crate) fn judge_roots<P: Pages>(
    alloc: Global,
    shape: Shape,
    pages: &mut P,
    def: &TableDef,
) -> Result<bool, StoreFault>
    requires going { (P.state pages.old).ended ≡ false }
    ensures judged { IfOk result (λ good. IsTrue (P.state pages.old).is_told → (owners : List Kind) → IsMapSound shape (P.state pages.old).work owners
        → JudgesRoots shape (P.state pages.old).work owners (tree_roots def.now) good) }
    ensures same { (P.state pages.new).work ≡ (P.state pages.old).work }
    ensures runs { RunsOverPages P.Pages NoPage AnyPage (Unless P.Pages pages.old (HasOwners shape)) pages.old pages.new (fault_of result) }
{
    let roots = roots_of(alloc, def)?;
    are_root_pages(shape, pages, &roots)
}

/// The roots of a table's trees.
fn roots_of(alloc: Global, def: &TableDef) -> Result<Vec<u32>, StoreFault>
    ensures roots { IfOk result (λ roots. roots.items ≡ tree_roots def.now) }
    ensures memory { IfErr result (λ fault. fault ≡ StoreFault.Memory) }
{
    let mut roots = Vec::new(alloc);
    roots.push(def.roots.map)?;
    roots.push(def.roots.composite)?;
    roots.extend_from_slice(def.roots.dims.as_slice())?;
    for index in def.indexes.as_slice() {
        roots.push(index.root)?;
    }
    Ok(roots)
}

/// Whether each of these pages is one of an extent of trees.
fn are_root_pages<P: Pages>(shape: Shape, pages: &mut P, roots: &[u32]) -> Result<bool, StoreFault>
    requires going { (P.state pages.old).ended ≡ false }
    ensures judged { IfOk result (λ good. IsTrue (P.state pages.old).is_told → (owners : List Kind) → IsMapSound shape (P.state pages.old).work owners
        → JudgesRoots shape (P.state pages.old).work owners roots.now good) }
    ensures same { (P.state pages.new).work ≡ (P.state pages.old).work }
    ensures runs { RunsOverPages P.Pages NoPage AnyPage (Unless P.Pages pages.old (HasOwners shape)) pages.old pages.new (fault_of result) }
{
    for root in roots {
        if !is_root_page(shape, pages, *root)? {
            return Ok(false);
        }
    }
    Ok(true)
}

/// Whether a page is one of an extent of trees.
fn is_root_page<P: Pages>(shape: Shape, pages: &mut P, p: u32) -> Result<bool, StoreFault>
    requires going { (P.state pages.old).ended ≡ false }
    ensures judged { IfOk result (λ good. IsTrue (P.state pages.old).is_told → (owners : List Kind) → IsMapSound shape (P.state pages.old).work owners
        → MatchBool good (IsRootPage shape (P.state pages.old).work owners p) (IsNoRootPage shape (P.state pages.old).work p)) }
    ensures same { (P.state pages.new).work ≡ (P.state pages.old).work }
    ensures runs { RunsOverPages P.Pages NoPage AnyPage (Unless P.Pages pages.old (HasOwners shape)) pages.old pages.new (fault_of result) }
{
    if !has_page(shape, p) {
        return Ok(false);
    }
    let kind = kind_of(shape, pages, extent_of(shape, p))?;
    Ok(is_index_kind(kind))
}

/// The extent that a page lies in.
fn extent_of(shape: Shape, p: u32) -> u32
    requires { IsExtentPage shape p }
    ensures value { result ≡ extent_of shape p }
    ensures below { result < shape.extents }
{
    (p - first_page(shape, 0)) / shape.extent_pages
}

/// Whether an extent has pages of trees.
fn is_index_kind(kind: Kind) -> bool
    ensures { MatchBool result (IsIndexKind kind) (IsIndexKind kind → ⊥) }
{
    match kind {
        Kind::Index(_) => true,
        Kind::Free => false,
        Kind::Block(_) => false,
    }
}
