// What holds of the pages of every database that was just made.
ghost use Rattle.std.specs.Prelude.{◌≡◌, IsTrue, ℕ};
ghost use Rattle.mdc_ast.specs.Database.{empty_database};
ghost use Rattle.statement_meaning.specs.Built.{AreBuiltDefs};
ghost use Rattle.mdc_ast.specs.Definitions.{no_tables};
ghost use Rattle.store_api.specs.Extents.{is_shape};
ghost use Rattle.store_api.specs.declared.shape.Shape.{Shape};
ghost use Rattle.mdc_sound.specs.SoundDatabase.{IsSoundDatabase};
ghost use Rattle.mdc_sound.specs.StandsForDatabase.{PagesStandFor};
ghost use Rattle.stored_catalog.specs.StoredDefinitions.{AreStored};
ghost use Rattle.session.specs.file.MadePages.{made_pages};

/// The pages of a database that was just made are sound, and stand for no table.
pub fn made_database_is_sound()
    ensures sound { (shape : Shape) → IsSoundDatabase shape (made_pages shape.extents) }
    ensures stands { (shape : Shape) → PagesStandFor shape (made_pages shape.extents) empty_database }
    ensures stored { (shape : Shape) → AreStored (made_pages shape.extents) no_tables }
    ensures valid { AreBuiltDefs no_tables }
    // there is a shape of each two numbers within the limits
    ensures extents { (extents extent_pages : ℕ) → IsTrue (is_shape extents extent_pages) → (shape : Shape) × (shape.extents ≡ extents) × (shape.extent_pages ≡ extent_pages) }
{}
