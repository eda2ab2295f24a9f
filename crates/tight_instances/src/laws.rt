// What holds of a file that a table fills.
ghost use Rattle.std.specs.Prelude.{◌≡◌, [], Some};
ghost use Rattle.block_map.specs.MapLines.{free_blocks, pending_blocks};
ghost use Rattle.mdc_ast.specs.Database.{appended, changed_at, numbered, with_place};
ghost use Rattle.mdc_ast.specs.Definitions.{with_index};
ghost use Rattle.mdc_ast.specs.ValidDatabase.{IsValid};
ghost use Rattle.mdc_sound.specs.EmptyDatabase.{few_extents};
ghost use Rattle.mdc_sound.specs.Placing.{table_spots};
ghost use Rattle.mdc_sound.specs.RunningFull.{CreateRunsFull, IndexRunsFull, InsertRunsFull};
ghost use Rattle.mdc_sound.specs.SmallDatabase.{def_t};
ghost use Rattle.mdc_sound.specs.SoundDatabase.{KeepAllRules};
ghost use Rattle.mdc_sound.specs.StandsForDatabase.{PagesStandFor};
ghost use Rattle.mdc_sound.specs.TightPages.{AreTightPages, HaveRoomOnce, IsHalfFullTree, need};
ghost use Rattle.sound_instances.specs.WorkedDatabase.{price_tree, view_sales, worked_view};
ghost use Rattle.sound_instances.specs.WorkedPages.{worked_owners, worked_pages};
ghost use Rattle.sound_instances.specs.WorkedTables.{def_sales};
ghost use Rattle.tight_instances.specs.FullFile.{four_extents, full_database, full_pages, full_view, one_more_index, one_more_table, row_of_new_cell, row_of_old_cell};

/// A table of two cells with a UNIQUE index, on 26 pages, fills a file of four extents: its pages are sound and tight, they stand for
/// a valid database, and that needs all four.
pub fn full_file_is_tight()
    ensures rules { KeepAllRules four_extents full_pages full_view }
    ensures stands { PagesStandFor four_extents full_pages full_database }
    ensures valid { IsValid full_database }
    ensures tight { AreTightPages four_extents full_pages full_view }
    ensures need { need four_extents full_database ≡ 4 }
{}

/// What needs one extent more than there are runs full there: an INSERT of a row of a third cell, and a CREATE INDEX. So does a CREATE
/// TABLE, which needs two more.
pub fn one_block_more_runs_full()
    ensures insert { InsertRunsFull four_extents full_pages def_t (numbered def_t.next row_of_new_cell) }
    ensures insert_need { need four_extents (changed_at full_database 0 (appended row_of_new_cell)) ≡ 5 }
    ensures index { IndexRunsFull four_extents full_pages def_t one_more_index }
    ensures index_need { need four_extents (changed_at full_database 0 (λ one. record one { def = with_index one.def one_more_index })) ≡ 5 }
    ensures create { CreateRunsFull four_extents full_pages one_more_table }
    ensures create_need { need four_extents (with_place full_database 1 (Some (record { def = record one_more_table { number = 1 }; rows = [] }))) ≡ 6 }
{}

/// An INSERT of a row of a cell whose block has room needs no extent more, so it doesn't run full.
pub fn room_that_is_left_is_used()
    ensures need { need four_extents (changed_at full_database 0 (appended row_of_old_cell)) ≡ 4 }
    ensures insert { InsertRunsFull four_extents full_pages def_t (numbered def_t.next row_of_old_cell) → ⊥ }
{}

/// Sound pages needn't be tight. In the worked database two blocks of a cell have room, a block is Free and one Pending, and a leaf of
/// a tree of two levels is less than half full.
pub fn worked_database_is_not_tight()
    ensures room { HaveRoomOnce def_sales (table_spots few_extents worked_pages def_sales worked_owners view_sales.map) → ⊥ }
    ensures free { free_blocks view_sales.map ≡ [] → ⊥ }
    ensures pending { pending_blocks view_sales.map ≡ [] → ⊥ }
    ensures leaves { IsHalfFullTree 20 price_tree → ⊥ }
    ensures tight { AreTightPages few_extents worked_pages worked_view → ⊥ }
{}
