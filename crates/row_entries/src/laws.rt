// What sound record indexes say of the entries of rows, and that they are sound still when rows come and go with their entries.
ghost use Rattle.std.specs.Prelude.{◌≡◌, ◌≢◌, ◌↔◌, ◌∷◌, ℕ, List, Option, None, Contains, IsPermutation, slice_index_or};
ghost use Rattle.mdc_values.specs.declared.rid.Rid.{Rid};
ghost use Rattle.mdc_ast.specs.TableLimits.{IsTableDef};
ghost use Rattle.mdc_ast.specs.declared.definition.TableDef.{TableDef};
ghost use Rattle.mdc_ast.specs.declared.row.Row.{Row};
ghost use Rattle.store_api.specs.declared.shape.Shape.{Shape};
ghost use Rattle.extent_map.specs.declared.kind.Kind.{Kind};
ghost use Rattle.entry_tree.specs.Forest.{Forest};
ghost use Rattle.block_index.specs.Listing.{GainsEntry, LosesEntry};
ghost use Rattle.block_map.specs.MapLines.{pending_blocks};
ghost use Rattle.mdc_sound.specs.BlockRules.{AreTableIndexesSound};
ghost use Rattle.mdc_sound.specs.Placing.{IsRowAt, PutsRow, Spot, SpotsAfterClaims, SpotsAfterReturns, TakesRow, row_at_spot};
ghost use Rattle.mdc_sound.specs.Placing.Spot.{OtherBlock, PendingBlock};
ghost use Rattle.mdc_sound.specs.StandingTable.{StandsTable, TableForests, pages_of, spots_of, view_of};
ghost use Rattle.mdc_sound.specs.TableRows.{PlacedRow, rows_in_table};
ghost use Rattle.record_index.specs.FoundRids.{IsRid};
ghost use Rattle.record_index.specs.SoundRows.{LieApart};
ghost use Rattle.row_entries.specs.ChosenIndexes.{HasRecordKeys, MoveChosen, all_chosen, differing_chosen, entry_of};
ghost use Rattle.row_entries.specs.RowEntries.{HasRowEntries, HasRowEntriesOnly, LacksRowEntries};
ghost use Rattle.row_entries.specs.SoundEntries.{AreIndexesSound, StayPending, StayPendingSpots, placed_at};

use store_api::Pages;

/// A row that comes with its entries, goes with them, or gives way to another in its place with those that differ leaves record
/// indexes sound, whatever blocks are Pending besides.
pub fn moved_rows_keep_indexes_sound()
    ensures comes { (def : TableDef) (row : Row) (rid : Rid) (rows rows_now : List PlacedRow) (pending pending_now : List ℕ) (trees after : List Forest) → AreIndexesSound def rows pending trees
        → MoveChosen GainsEntry (entry_of def row rid) (all_chosen def) def.indexes trees after
        → IsPermutation (placed_at rid row ∷ rows) rows_now → StayPending pending pending_now → AreIndexesSound def rows_now pending_now after }
    ensures goes { (def : TableDef) (row : Row) (rid : Rid) (rows rows_now : List PlacedRow) (pending pending_now : List ℕ) (trees after : List Forest) → AreIndexesSound def rows pending trees → LieApart rows
        → MoveChosen LosesEntry (entry_of def row rid) (all_chosen def) def.indexes trees after
        → IsPermutation (placed_at rid row ∷ rows_now) rows → StayPending pending pending_now → AreIndexesSound def rows_now pending_now after }
    ensures gives_way { (def : TableDef) (was is : Row) (rid : Rid) (rows rows_now stay : List PlacedRow) (pending pending_now : List ℕ) (trees left after : List Forest) → AreIndexesSound def rows pending trees → LieApart rows
        → MoveChosen LosesEntry (entry_of def was rid) (differing_chosen def was is) def.indexes trees left
        → MoveChosen GainsEntry (entry_of def is rid) (differing_chosen def was is) def.indexes left after
        → IsPermutation (placed_at rid was ∷ stay) rows → IsPermutation (placed_at rid is ∷ stay) rows_now → StayPending pending pending_now → AreIndexesSound def rows_now pending_now after }
{}

/// What calls on a table's record indexes expect holds where these are sound: each has the entry of a row that lies in a place,
/// none has one of an empty place whose block isn't Pending, and none has that of another row in a place under a key that differs.
pub fn sound_indexes_are_as_expected<P: Pages>(pages: &P)
    ensures has { (shape : Shape) (def : TableDef) (owners : List Kind) (forests : TableForests) (row : Row) (rid : Rid) (slots : List (Option Row)) → StandsTable P.Pages shape pages.now def owners forests
        → AreTableIndexesSound shape (pages_of P.Pages pages.now) (view_of def forests)
        → IsRowAt (spots_of P.Pages shape pages.now def owners forests) rid row slots → HasRowEntries def row rid owners forests }
    ensures lacks { (shape : Shape) (def : TableDef) (owners others : List Kind) (forests more : TableForests) (row : Row) (rid : Rid) → StandsTable P.Pages shape pages.now def owners forests → IsTableDef def.number def
        → AreTableIndexesSound shape (pages_of P.Pages pages.now) (view_of def forests) → HasRecordKeys def row.values → IsRid rid
        → row_at_spot (spots_of P.Pages shape pages.now def owners forests) rid ≡ None
        → slice_index_or (spots_of P.Pages shape pages.now def owners forests) rid.block OtherBlock ≢ PendingBlock → more.indexes ≡ forests.indexes → LacksRowEntries def row rid others more }
    ensures has_only { (shape : Shape) (def : TableDef) (owners : List Kind) (forests : TableForests) (was is : Row) (rid : Rid) (slots : List (Option Row)) → StandsTable P.Pages shape pages.now def owners forests
        → IsTableDef def.number def → AreTableIndexesSound shape (pages_of P.Pages pages.now) (view_of def forests) → HasRecordKeys def was.values → HasRecordKeys def is.values
        → IsRowAt (spots_of P.Pages shape pages.now def owners forests) rid was slots → HasRowEntriesOnly def was is rid owners forests }
{}

/// The rows of a table that stands lie in places that entries can name, no two in one. Its Pending blocks are those whose spots
/// say so.
pub fn standing_rows_lie_apart<P: Pages>(pages: &P)
    ensures rows { (shape : Shape) (def : TableDef) (owners : List Kind) (forests : TableForests) → IsTableDef def.number def → StandsTable P.Pages shape pages.now def owners forests
        → LieApart (rows_in_table shape (pages_of P.Pages pages.now) def forests.map) }
    ensures pending { (shape : Shape) (def : TableDef) (owners : List Kind) (forests : TableForests) → StandsTable P.Pages shape pages.now def owners forests
        → (block : ℕ) → Contains (pending_blocks forests.map) block ↔ (slice_index_or (spots_of P.Pages shape pages.now def owners forests) block OtherBlock ≡ PendingBlock) }
{}

/// What a row needs in a place where placing puts it: no row lies there, and its block isn't Pending. Each block that was Pending
/// still is where a row was put or taken out, and where trees claimed pages or gave some back.
pub fn placing_leaves_pending_blocks()
    ensures bare { (def : TableDef) (n : ℕ) (old new : List Spot) (row : Row) (rid : Rid) → PutsRow def n old row new rid
        → (row_at_spot old rid ≡ None) × (slice_index_or old rid.block OtherBlock ≢ PendingBlock) }
    ensures put { (def : TableDef) (n : ℕ) (old mid new : List Spot) (row : Row) (rid : Rid) → PutsRow def n old row mid rid → SpotsAfterClaims mid new → StayPendingSpots old new }
    ensures taken { (old mid new : List Spot) (row : Row) (rid : Rid) → TakesRow old rid row mid → SpotsAfterReturns mid new → StayPendingSpots old new }
    ensures claims { (old new : List Spot) → SpotsAfterClaims old new → StayPendingSpots old new }
    ensures returns { (old new : List Spot) → SpotsAfterReturns old new → StayPendingSpots old new }
{}
