// What a record index that is sound says of the entries of rows.
ghost use Rattle.std.specs.Prelude.{◌≡◌, ◌≢◌, ◌+◌, ℕ, IsTrue, List, Contains};
ghost use Rattle.std.specs.List.{AllByRecursion};
ghost use Rattle.mdc_values.specs.declared.rid.Rid.{Rid};
ghost use Rattle.mdc_values.specs.declared.value.Value.{Value};
ghost use Rattle.mdc_ast.specs.Truth.{value_at};
ghost use Rattle.mdc_ast.specs.declared.definition.IndexDef.{IndexDef};
ghost use Rattle.mdc_ast.specs.declared.definition.TableDef.{TableDef};
ghost use Rattle.mdc_ast.specs.declared.span.Span.{Span};
ghost use Rattle.key_codec.specs.Keys.{ArePartsOf, key_bytes, width_of_parts};
ghost use Rattle.key_codec.specs.Spans.{first_column, lies_in_span};
ghost use Rattle.entry_tree.specs.Entries.{AreOfWidth};
ghost use Rattle.entry_tree.specs.EntryBounds.{IsEntryOf};
ghost use Rattle.entry_tree.specs.Forest.{Forest, leaf_entries};
ghost use Rattle.table_trees.specs.TableTrees.{AreIndexParts, record_entry};
ghost use Rattle.mdc_sound.specs.BlockRules.{IsSoundIndex};
ghost use Rattle.mdc_sound.specs.TableRows.{PlacedRow};
ghost use Rattle.record_index.specs.FoundRids.{AreRidsUnder, FindsRids, IsRid};
ghost use Rattle.record_index.specs.RecordIndexes.{HaveKeysIn};
ghost use Rattle.record_index.specs.SoundRows.{AreEnterable, FindsWantedRows};

/// A sound record index has the entry of each row; and it has no entry of a place where none of these rows lies, unless its block
/// waits for its cleanup. So where the extent map and the tree have their form, `drop_row` of a row, and `add_row` at an empty
/// place of a block that doesn't wait, name no damage of rule 11.
pub fn sound_indexes_have_rows()
    ensures has { (def : TableDef) (rows : List PlacedRow) (pending : List ℕ) (which : IndexDef) (t : Forest) (placed : PlacedRow) → IsSoundIndex def rows pending which t
        → Contains rows placed → IsEntryOf (record_entry def.columns which.parts placed.row.values placed.rid) (leaf_entries t) }
    ensures lacks { (def : TableDef) (rows : List PlacedRow) (pending : List ℕ) (which : IndexDef) (t : Forest) (values : List Value) (rid : Rid) → IsSoundIndex def rows pending which t
        → ArePartsOf def.columns which.parts → HaveKeysIn def.columns which.parts values → IsRid rid → AllByRecursion (λ placed. IsRid placed.rid × (placed.rid ≢ rid)) rows
        → (Contains pending rid.block → ⊥) → IsEntryOf (record_entry def.columns which.parts values rid) (leaf_entries t) → ⊥ }
{}

/// What `rids_under` and `rids_in` find in a sound record index: each row of the key, or with a value in the span, and beside them
/// nothing but places in blocks that wait for their cleanup.
pub fn sound_indexes_find_rows()
    ensures under { (def : TableDef) (rows : List PlacedRow) (pending : List ℕ) (which : IndexDef) (t : Forest) (values : List Value) (rids : List Rid) → IsSoundIndex def rows pending which t
        → ArePartsOf def.columns which.parts → AreEnterable def which rows → HaveKeysIn def.columns which.parts values
        → AreRidsUnder (key_bytes def.columns which.parts values) (leaf_entries t) rids
        → FindsWantedRows rows pending (λ placed. key_bytes def.columns which.parts placed.row.values ≡ key_bytes def.columns which.parts values) rids }
    ensures within { (def : TableDef) (rows : List PlacedRow) (pending : List ℕ) (which : IndexDef) (t : Forest) (span : Span) (rids : List Rid) (old new : ℕ) → IsSoundIndex def rows pending which t
        → AreIndexParts def.columns which.parts → AreEnterable def which rows → AreOfWidth (width_of_parts def.columns which.parts + 6) (leaf_entries t)
        → FindsRids def.columns which.parts span (leaf_entries t) rids old new
        → FindsWantedRows rows pending (λ placed. IsTrue (lies_in_span span (value_at placed.row.values (first_column which.parts)))) rids }
{}
