// A rollout beside the same rows deleted one by one.
ghost use Rattle.std.specs.Prelude.{◌≡◌, Bool, List, true};
ghost use Rattle.std.specs.List.{AllZip};
ghost use Rattle.mdc_words.specs.ByteOrder.{Entry};
ghost use Rattle.mdc_ast.specs.TableLimits.{IsTableDef};
ghost use Rattle.mdc_ast.specs.declared.definition.TableDef.{TableDef};
ghost use Rattle.mdc_ast.specs.declared.row.Row.{Row};
ghost use Rattle.mdc_ast.specs.declared.statement.RolloutMode.TheVariants.{Immediate};
ghost use Rattle.extent_map.specs.declared.kind.Kind.{Kind};
ghost use Rattle.extent_map.specs.declared.space_notes.SpaceNotes.{SpaceNotes};
ghost use Rattle.entry_tree.specs.Forest.{Forest};
ghost use Rattle.mdc_sound.specs.Placing.{RollsOut, Spot, SpotsAfterReturns, rows_from_spot};
ghost use Rattle.mdc_sound.specs.StandingTable.{RoomNote, StandsTable, TableForests, spots_of};
ghost use Rattle.mdc_sound.specs.TableRows.{PlacedRow};
ghost use Rattle.rollout.specs.Applying.{applies_to};
ghost use Rattle.rollout.specs.LostEntries.{LosesEntries};
ghost use Rattle.rollout.specs.RolledBlocks.{RollsOutRows, is_chosen};
ghost use Rattle.rollout.specs.RowByRow.{AreChosenRows, AreWholeBlocks, DeletesRows, SameEntries, TakesRows};
ghost use Rattle.rollout.specs.declared.rolling.RolledOut.{RolledOut};

use mdc_ast::{Pred, TableDef};
use store_api::{Pages, Shape};

/// Where a predicate names dimension columns alone, of each block of a table that stands all rows qualify, or none does.
pub fn whole_blocks_qualify<P: Pages>(shape: Shape, def: &TableDef, pred: &Option<Pred>, pages: &P)
    requires defined { IsTableDef def.now.number def.now }
    requires applies { applies_to pred.now def.now ≡ true }
    ensures { (owners : List Kind) (forests : TableForests) → StandsTable P.Pages shape pages.now def.now owners forests → AreWholeBlocks (is_chosen pred.now) (spots_of P.Pages shape pages.now def.now owners forests) }
{}

/// Rows that calls delete one after the other are taken out of their blocks, and each record index loses their entries and nothing else.
pub fn deleted_one_by_one<P: Pages>(shape: Shape, def: &TableDef, old: &P, new: &P)
    requires defined { IsTableDef def.now.number def.now }
    ensures spots { (owners owners_now : List Kind) (forests forests_now : TableForests) (rows : List PlacedRow) → DeletesRows P.Pages shape def.now old.now owners forests rows new.now owners_now forests_now
        → TakesRows (spots_of P.Pages shape old.now def.now owners forests) rows (spots_of P.Pages shape new.now def.now owners_now forests_now) }
    ensures entries { (owners owners_now : List Kind) (forests forests_now : TableForests) (rows : List PlacedRow) → DeletesRows P.Pages shape def.now old.now owners forests rows new.now owners_now forests_now
        → StandsTable P.Pages shape old.now def.now owners forests → LosesEntries def.now forests.indexes rows forests_now.indexes }
{}

/// The rows that a rollout took out are those that qualify, each with its place.
pub fn rolled_rows_qualify<P: Pages>(
    shape: Shape,
    def: &TableDef,
    pred: &Option<Pred>,
    old: &P,
    new: &P,
)
    ensures { (before noted : SpaceNotes) (room_of : Entry → RoomNote) (rolled : RolledOut) (owners : List Kind) (forests : TableForests) → StandsTable P.Pages shape old.now def.now owners forests
        → (rolls : RollsOutRows P.Pages shape before noted room_of old.now new.now def.now pred.now rolled owners forests) → AreChosenRows (is_chosen pred.now) (spots_of P.Pages shape old.now def.now owners forests) rolls.gone }
{}

/// Where of each block all rows are chosen or none is, the chosen rows that are taken out one by one, in whichever order, leave the blocks
/// and the rows that a rollout leaves, but for extents that trees gave back; and record indexes that lost the entries of the same rows,
/// in whichever order, have the same entries.
pub fn as_row_by_row()
    ensures spots { (def : TableDef) (chosen : Row → Bool) (old by_row new : List Spot) (rows : List PlacedRow) → AreWholeBlocks chosen old → AreChosenRows chosen old rows → TakesRows old rows by_row
        → (rolls : RollsOut def Immediate chosen old new) → SpotsAfterReturns rolls.rolled by_row }
    ensures rows { (def : TableDef) (chosen : Row → Bool) (old by_row new : List Spot) (rows : List PlacedRow) → AreWholeBlocks chosen old → AreChosenRows chosen old rows → TakesRows old rows by_row
        → RollsOut def Immediate chosen old new → rows_from_spot 0 by_row ≡ rows_from_spot 0 new }
    ensures entries { (def : TableDef) (chosen : Row → Bool) (old : List Spot) (trees by_row new : List Forest) (rows others : List PlacedRow) → AreChosenRows chosen old rows → AreChosenRows chosen old others
        → LosesEntries def trees rows by_row → LosesEntries def trees others new → AllZip SameEntries by_row new }
{}
