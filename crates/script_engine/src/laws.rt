// What holds of every list of pages.
ghost use Rattle.store_api.specs.declared.shape.Shape.{Shape};
ghost use Rattle.table_trees.specs.ToldPages.{PageList};
ghost use Rattle.mdc_ast.specs.Database.{Database};
ghost use Rattle.mdc_ast.specs.Definitions.{Definitions};
ghost use Rattle.mdc_ast.specs.ValidDatabase.{IsValid};
ghost use Rattle.mdc_sound.specs.SoundDatabase.{IsSoundDatabase, KeepAllRules};
ghost use Rattle.mdc_sound.specs.SpaceRules.{DatabaseView};
ghost use Rattle.mdc_sound.specs.StandsForDatabase.{PagesStandFor};
ghost use Rattle.stored_catalog.specs.StoredDefinitions.{AreStored};
ghost use Rattle.script_engine.specs.Ready.{AreServed};

/// Sound pages stand for a database, so that what is said of each database that they stand for is said of one. It is one alone, by
/// the law `pages_stand_for_one` of `mdc_sound`.
pub fn sound_pages_stand()
    ensures { (shape : Shape) (pages : PageList) → IsSoundDatabase shape pages → (db : Database) × PagesStandFor shape pages db }
{}

/// Sound pages whose definitions are served stand for a valid database.
pub fn served_pages_are_valid()
    ensures { (shape : Shape) (pages : PageList) (view : DatabaseView) (defs : Definitions) (db : Database) → KeepAllRules shape pages view → AreStored pages defs → AreServed defs → PagesStandFor shape pages db → IsValid db }
{}
