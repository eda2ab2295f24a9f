// What a pass that has come to its end says of record indexes, and how its blocks may be freed.
ghost use Rattle.std.specs.Prelude.{◌≡◌, ◌⊎◌, ℕ, List, Contains, None, Some, length, slice_get};
ghost use Rattle.mdc_ast.specs.declared.definition.IndexDef.{IndexDef};
ghost use Rattle.mdc_ast.specs.declared.definition.TableDef.{TableDef};
ghost use Rattle.key_codec.specs.Keys.{width_of_parts};
ghost use Rattle.entry_tree.specs.Forest.{Forest};
ghost use Rattle.mdc_sound.specs.BlockRules.{IsSoundIndex};
ghost use Rattle.mdc_sound.specs.TableRows.{PlacedRow};
ghost use Rattle.cleaner.specs.Passes.{IsDone, NamesNoneUnder, key_width_at};
ghost use Rattle.cleaner.specs.declared.pass.Pass.{Pass};

/// A pass that begins has come past nothing. Behind the last index no entry of any index names a block of it. A record index that names
/// none of some blocks is sound without them: these need wait no longer.
pub fn ended_passes_leave_none()
    ensures begun { (def : TableDef) (pass : Pass) (trees : List Forest) → pass.index ≡ 0 → pass.bound ≡ None → IsDone def pass trees }
    ensures ended { (def : TableDef) (pass : Pass) (trees : List Forest) → pass.index ≡ length trees → IsDone def pass trees
        → (n : ℕ) (t : Forest) → slice_get trees n ≡ Some t → NamesNoneUnder (key_width_at def n) pass.blocks None t }
    ensures freed { (def : TableDef) (rows : List PlacedRow) (pending waiting blocks : List ℕ) (which : IndexDef) (t : Forest) → NamesNoneUnder (width_of_parts def.columns which.parts) blocks None t
        → ((block : ℕ) → Contains pending block → Contains blocks block ⊎ Contains waiting block) → IsSoundIndex def rows pending which t → IsSoundIndex def rows waiting which t }
{}
