// What holds of every list of pages and of every store that tells its pages, and of databases that were worked out by hand.
ghost use Rattle.std.specs.Prelude.{◌≡◌, ◌↔◌, ◌<◌, ◌≤◌, ◌^◌, ℕ, IsTrue, List, length};
ghost use Rattle.std.specs.List.{AllByRecursion};
ghost use Rattle.store_api.specs.Frame.{Touches};
ghost use Rattle.store_api.specs.declared.shape.Shape.{Shape};
ghost use Rattle.extent_map.specs.Map.{HoldsMap};
ghost use Rattle.extent_map.specs.declared.kind.Kind.{Kind};
ghost use Rattle.extent_map.specs.declared.space_notes.SpaceNotes.{SpaceNotes};
ghost use Rattle.entry_tree.specs.Forest.{Forest};
ghost use Rattle.mdc_ast.specs.TableLimits.{IsTableDef};
ghost use Rattle.table_trees.specs.TableTrees.{AreIndexParts, HasBlockIndexes, TreePlace};
ghost use Rattle.table_trees.specs.TreesBeside.{HoldsTreeAt};
ghost use Rattle.table_trees.specs.ToldPages.{HasTree, PageList, told_pages};
ghost use Rattle.mdc_ast.specs.declared.definition.TableDef.{TableDef};
ghost use Rattle.mdc_ast.specs.Database.{Database, empty_database};
ghost use Rattle.mdc_sound.specs.BlockRules.{AreRowNumbersSound, AreTableIndexesSound};
ghost use Rattle.mdc_sound.specs.EmptyDatabase.{few_extents, empty_pages};
ghost use Rattle.mdc_sound.specs.SmallDatabase.{small_database, small_pages};
ghost use Rattle.mdc_sound.specs.SoundDatabase.{KeepAllRules, IsSoundBetweenChanges, IsSoundInParts, IsSoundDatabase, IsSoundWith};
ghost use Rattle.mdc_sound.specs.SpaceRules.{DatabaseView};
ghost use Rattle.mdc_sound.specs.StandingTable.{ChangesTable, IsTableSpace, StandsTable, TableForests, pages_of, view_of};
ghost use Rattle.mdc_sound.specs.StandsForDatabase.{PagesStandFor};
ghost use Rattle.mdc_sound.specs.TableRows.{rows_in_table};

use store_api::Pages;

/// The twelve rules are sound space, sound blocks and sound record indexes: the first is rules 1 to 6 and what rule 8 says of
/// blocks that aren't Used, the second rules 7, 9, 10 and 12 and what it says of Used ones, the third rule 11.
pub fn rules_make_parts()
    ensures { (shape : Shape) (pages : PageList) (view : DatabaseView) → KeepAllRules shape pages view ↔ IsSoundInParts shape pages view }
{}

/// The empty database of 16 extents of 2 pages is sound, and stands for no table.
pub fn empty_database_is_sound()
    ensures sound { IsSoundDatabase few_extents empty_pages }
    ensures stands { PagesStandFor few_extents empty_pages empty_database }
{}

/// A database of two tables with three cells and two nulls, on 32 pages, is sound, and stands for its rows.
pub fn small_database_is_sound()
    ensures sound { IsSoundDatabase few_extents small_pages }
    ensures stands { PagesStandFor few_extents small_pages small_database }
{}

/// Pages stand for one database at most.
pub fn pages_stand_for_one()
    ensures { (shape : Shape) (pages : PageList) (a b : Database) → PagesStandFor shape pages a → PagesStandFor shape pages b → a ≡ b }
{}

/// A store that tells its pages holds the same trees and the same extent map as the list of its pages, so that what is said of
/// page lists is said of stores.
pub fn told_stores_hold_their_pages<P: Pages>(pages: &P)
    ensures trees { IsTrue (P.state pages.now).is_told → (place : TreePlace) (t : Forest)
        → HoldsTreeAt P.Pages pages.now place t ↔ HasTree (P.state pages.now).work place t }
    ensures map { IsTrue (P.state pages.now).is_told → (shape : Shape) (owners : List Kind)
        → HoldsMap P.Pages shape pages.now owners ↔ HoldsMap told_pages shape (P.state pages.now).work owners }
{}

/// A definition within the limits has its trees: the columns of its block indexes and of its record indexes are there, and their
/// keys are short.
pub fn definitions_have_their_trees()
    ensures blocks { (t : ℕ) (def : TableDef) → IsTableDef t def → HasBlockIndexes def }
    ensures records { (t : ℕ) (def : TableDef) → IsTableDef t def → AllByRecursion (λ index. AreIndexParts def.columns index.parts) def.indexes }
{}

/// Where a store tells pages that are sound with a definition in hand, the table of this definition stands.
pub fn sound_tables_stand<P: Pages>(pages: &P)
    ensures { IsTrue (P.state pages.now).is_told → (shape : Shape) (def : TableDef) → IsSoundWith shape def (pages_of P.Pages pages.now)
        → (owners : List Kind) × (forests : TableForests) × StandsTable P.Pages shape pages.now def owners forests }
{}

/// Calls that change one table, and touch no page but its own, keep all pages sound with its definition in hand, and with the same
/// definition but for its next row number. The same holds between two changes, where rule 11 holds of this table now, and the
/// numbers of its rows differ and lie below the next one.
pub fn changed_tables_stay_sound<P: Pages>(old: &P, new: &P)
    ensures same_definition { (shape : Shape) (before noted : SpaceNotes) (def : TableDef) (owners owners_now : List Kind) (forests forests_now : TableForests)
        → IsSoundWith shape def (pages_of P.Pages old.now) → StandsTable P.Pages shape old.now def owners forests
        → ChangesTable P.Pages shape before noted old.now new.now def owners forests owners_now forests_now
        → Touches P.Pages (IsTableSpace P.Pages shape old.now def) old.now new.now → length (pages_of P.Pages old.now) ≤ length (pages_of P.Pages new.now)
        → IsSoundWith shape def (pages_of P.Pages new.now) }
    ensures next_number { (shape : Shape) (before noted : SpaceNotes) (def : TableDef) (owners owners_now : List Kind) (forests forests_now : TableForests) (next : ℕ)
        → IsSoundWith shape def (pages_of P.Pages old.now) → StandsTable P.Pages shape old.now def owners forests
        → ChangesTable P.Pages shape before noted old.now new.now def owners forests owners_now forests_now
        → Touches P.Pages (IsTableSpace P.Pages shape old.now def) old.now new.now → length (pages_of P.Pages old.now) ≤ length (pages_of P.Pages new.now)
        → next < 2 ^ 64 → IsSoundWith shape (record def { next = next }) (pages_of P.Pages new.now) }
    ensures between_changes { (shape : Shape) (before noted : SpaceNotes) (def : TableDef) (owners owners_now : List Kind) (forests forests_now : TableForests) (next : ℕ)
        → IsSoundBetweenChanges shape def (pages_of P.Pages old.now) → StandsTable P.Pages shape old.now def owners forests
        → ChangesTable P.Pages shape before noted old.now new.now def owners forests owners_now forests_now
        → Touches P.Pages (IsTableSpace P.Pages shape old.now def) old.now new.now → length (pages_of P.Pages old.now) ≤ length (pages_of P.Pages new.now)
        → AreTableIndexesSound shape (pages_of P.Pages new.now) (view_of def forests_now) → next < 2 ^ 64
        → AreRowNumbersSound (record def { next = next }) (rows_in_table shape (pages_of P.Pages new.now) def forests_now.map)
        → IsSoundBetweenChanges shape (record def { next = next }) (pages_of P.Pages new.now) }
{}
