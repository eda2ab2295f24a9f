// What holds of a database that was worked out by hand.
ghost use Rattle.std.specs.Prelude.{◌≡◌, [], ◌∷◌, map};
ghost use Rattle.std.specs.List.{AllZip};
ghost use Rattle.block_map.specs.MapLines.{free_blocks, pending_blocks, used_blocks};
ghost use Rattle.mdc_ast.specs.ValidDatabase.{IsValid};
ghost use Rattle.mdc_sound.specs.Breaks.{BreaksRule};
ghost use Rattle.mdc_sound.specs.EmptyDatabase.{few_extents};
ghost use Rattle.mdc_sound.specs.SoundDatabase.{KeepAllRules};
ghost use Rattle.mdc_sound.specs.StandsForDatabase.{PagesStandFor};
ghost use Rattle.mdc_sound.specs.TableRows.{rows_in_table};
ghost use Rattle.sound_instances.specs.ChangedPages.{with_byte};
ghost use Rattle.sound_instances.specs.WorkedDatabase.{HasLeftBehind, view_sales, worked_database, worked_view};
ghost use Rattle.sound_instances.specs.WorkedPages.{worked_pages};
ghost use Rattle.sound_instances.specs.WorkedTables.{def_sales};

/// A table with Used, Free and Pending blocks, two record indexes and generated columns, beside a table without rows, on 44 pages:
/// they keep all twelve rules, and stand for the rows of the Used blocks, which are those of a valid database.
pub fn worked_database_is_sound()
    ensures rules { KeepAllRules few_extents worked_pages worked_view }
    ensures stands { PagesStandFor few_extents worked_pages worked_database }
    ensures valid { IsValid worked_database }
{}

/// The worked pages have blocks in each state, rows that don't rise by block, and in each record index an entry that no row has.
pub fn worked_database_has_each_kind()
    ensures free { free_blocks view_sales.map ≡ 5 ∷ [] }
    ensures used { used_blocks view_sales.map ≡ 1 ∷ 8 ∷ 10 ∷ [] }
    ensures pending { pending_blocks view_sales.map ≡ 6 ∷ [] }
    ensures rows { map (λ placed. placed.row.number) (rows_in_table few_extents worked_pages def_sales view_sales.map) ≡ 7 ∷ 4 ∷ 1 ∷ 8 ∷ 2 ∷ [] }
    ensures left_behind { AllZip (HasLeftBehind few_extents worked_pages view_sales) def_sales.indexes view_sales.indexes }
{}

/// One other byte on these pages breaks each of the rules, at the page that is named for it.
pub fn one_byte_breaks_each_rule()
    // another letter in `ROOT`
    ensures root_page { BreaksRule few_extents (with_byte 0 0 83) 1 0 }
    // an extent of no kind
    ensures extent_map { BreaksRule few_extents (with_byte 17 0 3) 2 17 }
    // another mark of the table page of SALES, and a page of the extent map for the root of its block map
    ensures table_page { BreaksRule few_extents (with_byte 3 0 85) 3 3 }
    ensures root_outside { BreaksRule few_extents (with_byte 3 33 17) 3 3 }
    // another mark of a leaf
    ensures tree { BreaksRule few_extents (with_byte 36 0 77) 4 36 }
    // one root of both dimensions
    ensures shared_page { BreaksRule few_extents (with_byte 3 45 23) 5 23 }
    // a state above 2
    ensures block_map { BreaksRule few_extents (with_byte 18 27 3) 6 18 }
    // a row page that states three rows and has two, and 5 for half of 9
    ensures row_page { BreaksRule few_extents (with_byte 21 5 3) 7 21 }
    ensures row { BreaksRule few_extents (with_byte 21 55 5) 7 21 }
    // three rows counted for the two of a Used block, and one for the Pending block
    ensures used_count { BreaksRule few_extents (with_byte 18 22 3) 8 20 }
    ensures idle_count { BreaksRule few_extents (with_byte 18 36 1) 8 30 }
    // rows of two months
    ensures cell { BreaksRule few_extents (with_byte 21 35 8) 9 20 }
    // the Pending block listed under a city, in place of a Used one
    ensures block_index { BreaksRule few_extents (with_byte 23 33 6) 10 23 }
    // an entry left behind that names the Free block
    ensures record_index { BreaksRule few_extents (with_byte 22 53 5) 11 33 }
    // the number of a row as the next one, and an index of equal keys that is UNIQUE
    ensures row_numbers { BreaksRule few_extents (with_byte 3 29 8) 12 3 }
    ensures unique { BreaksRule few_extents (with_byte 3 636 1) 12 3 }
{}
