// What holds of tight pages of every sound database, whatever calls are made.
ghost use Rattle.std.specs.Prelude.{◌≡◌, ◌<◌, ℕ, [], List, Contains, Some, None, slice_get};
ghost use Rattle.std.specs.List.{AllByRecursion};
ghost use Rattle.mdc_ast.specs.Database.{Database, appended, changed_at, numbered, with_place};
ghost use Rattle.mdc_ast.specs.Definitions.{with_index};
ghost use Rattle.mdc_ast.specs.declared.definition.IndexDef.{IndexDef};
ghost use Rattle.mdc_ast.specs.declared.definition.TableDef.{TableDef};
ghost use Rattle.mdc_values.specs.declared.value.Value.{Value};
ghost use Rattle.store_api.specs.declared.shape.Shape.{Shape};
ghost use Rattle.key_codec.specs.Keys.{ArePartsOf};
ghost use Rattle.table_trees.specs.SpaceChanges.{MakesChanges, SpaceChange};
ghost use Rattle.table_trees.specs.TableTrees.{TreePlace, cell_parts, rising_parts, tree_places};
ghost use Rattle.table_trees.specs.ToldPages.{PageList};
ghost use Rattle.mdc_sound.specs.RunningFull.{CreateRunsFull, IndexRunsFull, InsertRunsFull};
ghost use Rattle.mdc_sound.specs.SoundDatabase.{KeepAllRules};
ghost use Rattle.mdc_sound.specs.SpaceRules.{DatabaseView, tables_there};
ghost use Rattle.mdc_sound.specs.StandsForDatabase.{PagesStandFor};
ghost use Rattle.mdc_sound.specs.TableViews.{TableView};
ghost use Rattle.mdc_sound.specs.TightPages.{AreTightPages, need};
ghost use Rattle.tight_space.specs.PuttingChanges.{AddsToTrees, HasTightBlocks, IsTreeAfter, AllFit};

/// Where a CREATE TABLE, an INSERT or a CREATE INDEX runs full on tight pages, the database that it would make needs more extents
/// than there are.
pub fn full_only_beyond_need()
    ensures create { (shape : Shape) (pages : PageList) (view : DatabaseView) (db : Database) (place : ℕ) (def : TableDef)
        → KeepAllRules shape pages view → AreTightPages shape pages view → PagesStandFor shape pages db → slice_get db place ≡ Some None
        → ArePartsOf def.columns (cell_parts def) → AllByRecursion (λ dim. ArePartsOf def.columns (rising_parts dim)) def.dims → CreateRunsFull shape pages def
        → shape.extents < need shape (with_place db place (Some (record { def = record def { number = place }; rows = [] }))) }
    ensures insert { (shape : Shape) (pages : PageList) (view : DatabaseView) (db : Database) (place : ℕ) (table : TableView) (tuples : List (List Value))
        → KeepAllRules shape pages view → AreTightPages shape pages view → PagesStandFor shape pages db → slice_get view.places place ≡ Some (Some table)
        → AllFit table.def (numbered table.def.next tuples) → InsertRunsFull shape pages table.def (numbered table.def.next tuples)
        → shape.extents < need shape (changed_at db place (appended tuples)) }
    ensures index { (shape : Shape) (pages : PageList) (view : DatabaseView) (db : Database) (place : ℕ) (table : TableView) (index : IndexDef)
        → KeepAllRules shape pages view → AreTightPages shape pages view → PagesStandFor shape pages db → slice_get view.places place ≡ Some (Some table)
        → ArePartsOf table.def.columns index.parts → IndexRunsFull shape pages table.def index
        → shape.extents < need shape (changed_at db place (λ one. record one { def = with_index one.def index })) }
{}

/// Changes of space that claim blocks, make trees and add to trees, made one after the other on tight pages, leave tight pages,
/// where each tree of the sound database afterwards was there or was made, no cell has two blocks with room, and no block is Free
/// or Pending.
pub fn changes_leave_tight_pages()
    ensures { (shape : Shape) (old new : PageList) (view now : DatabaseView) (db : Database) (changes : List SpaceChange)
        → KeepAllRules shape old view → AreTightPages shape old view → PagesStandFor shape old db → AddsToTrees view changes → MakesChanges shape old changes new → KeepAllRules shape new now
        → ((t : ℕ) (table : TableView) → slice_get now.places t ≡ Some (Some table) → HasTightBlocks shape new now table)
        → ((t : ℕ) (table : TableView) → slice_get now.places t ≡ Some (Some table) → (place : TreePlace) → Contains (tree_places table.def) place → IsTreeAfter view changes place)
        → AreTightPages shape new now }
{}

/// The pages of a sound database without tables are tight.
pub fn no_tables_are_tight()
    ensures { (shape : Shape) (pages : PageList) (view : DatabaseView) → KeepAllRules shape pages view → tables_there view.places ≡ [] → AreTightPages shape pages view }
{}
