// What the absence of twins says of the keys of a table.
ghost use Rattle.std.specs.Prelude.{◌≢◌, ◌++◌, ℕ, List, AllPairs, Contains, None, map};
ghost use Rattle.std.specs.List.{AllByRecursion};
ghost use Rattle.mdc_values.specs.declared.rid.Rid.{Rid};
ghost use Rattle.mdc_values.specs.declared.value.Value.{Value};
ghost use Rattle.mdc_ast.specs.declared.definition.TableDef.{TableDef};
ghost use Rattle.mdc_sound.specs.TableRows.{PlacedRow};
ghost use Rattle.record_index.specs.RecordIndexes.{key_in_record_index};
ghost use Rattle.live_rows.specs.Twins.{FindsTwin};

/// Of a table some rows stay, whose keys in an index differ, and none of which is at one of some places. Rows of other values come,
/// whose keys differ, and none of which has a twin outside these places. Then the keys of all of them differ.
pub fn no_twins_no_doubles()
    ensures { (def : TableDef) (index : ℕ) (rows stay : List PlacedRow) (come : List (List Value)) (but : List Rid)
        → ((placed : PlacedRow) → Contains stay placed → Contains rows placed × (Contains but placed.rid → ⊥))
        → AllPairs (λ a b. key_in_record_index def index a ≢ key_in_record_index def index b) (map (λ placed. placed.row.values) stay)
        → AllPairs (λ a b. key_in_record_index def index a ≢ key_in_record_index def index b) come
        → AllByRecursion (λ values. FindsTwin def index rows values but None) come
        → AllPairs (λ a b. key_in_record_index def index a ≢ key_in_record_index def index b) (map (λ placed. placed.row.values) stay ++ come) }
{}
