// What holds of each statement that only puts, on tight pages.
ghost use Rattle.std.specs.Prelude.{◌≡◌, ◌<◌, ℕ, [], List, None, Some};
ghost use Rattle.mdc_values.specs.declared.value.Value.{Value};
ghost use Rattle.mdc_ast.specs.Database.{Database};
ghost use Rattle.mdc_ast.specs.Definitions.{Definitions, def_at};
ghost use Rattle.mdc_ast.specs.declared.bound.Bound.TheVariants as bound;
ghost use Rattle.mdc_ast.specs.declared.definition.IndexDef.{IndexDef};
ghost use Rattle.mdc_ast.specs.declared.definition.TableDef.{TableDef};
ghost use Rattle.mdc_ast.specs.ValidDatabase.{IsValid};
ghost use Rattle.mdc_ast.specs.declared.bound.Bound.{Bound};
ghost use Rattle.mdc_ast.specs.declared.reply.Outcome.TheVariants as said;
ghost use Rattle.mdc_ast.specs.declared.reply.Reply.{Reply};
ghost use Rattle.mdc_ast.specs.declared.statement.RolloutMode.{RolloutMode};
ghost use Rattle.mdc_ast.specs.declared.statement.Stmt.{Stmt};
ghost use Rattle.statement_meaning.specs.Doing.{effect};
ghost use Rattle.statement_meaning.specs.Step.{step};
ghost use Rattle.store_api.specs.declared.shape.Shape.{Shape};
ghost use Rattle.table_trees.specs.ToldPages.{PageList};
ghost use Rattle.mdc_sound.specs.SoundDatabase.{KeepAllRules};
ghost use Rattle.mdc_sound.specs.SpaceRules.{DatabaseView};
ghost use Rattle.mdc_sound.specs.StandingTable.{pages_of};
ghost use Rattle.mdc_sound.specs.StandsForDatabase.{PagesStandFor};
ghost use Rattle.mdc_sound.specs.TightPages.{AreTightPages, need};
ghost use Rattle.stored_catalog.specs.StoredDefinitions.{AreStored};
ghost use Rattle.script_engine.specs.Doing.{DoesStep, PlacesOnPages, RunsFullAlone, StepRunsFull};
ghost use Rattle.script_engine.specs.Others.{KeepsOthers};
ghost use Rattle.script_engine.specs.Ready.{AreServed};
ghost use Rattle.script_engine.specs.declared.tables.Tables.{Tables};
ghost use Rattle.script_engine.specs.PuttingStatements.{OnlyPutsByText, OnlyPuts};

use store_api::Pages;

/// Where a CREATE TABLE, a CREATE INDEX or an INSERT runs full on tight pages and nothing else is said against it, the database that
/// it would make, which is valid, needs more extents than there are: so it is of a bound statement, and of one by its text.
pub fn statements_run_full_beyond_need()
    ensures bound { (shape : Shape) (pages : PageList) (view : DatabaseView) (defs : Definitions) (db : Database) (statement : Bound)
        → KeepAllRules shape pages view → AreTightPages shape pages view → AreStored pages defs → PagesStandFor shape pages db → IsValid (effect db statement).0
        → OnlyPuts db statement → RunsFullAlone shape pages defs statement → shape.extents < need shape (effect db statement).0 }
    ensures text { (shape : Shape) (pages : PageList) (view : DatabaseView) (defs : Definitions) (db : Database) (statement : Stmt)
        → KeepAllRules shape pages view → AreTightPages shape pages view → AreStored pages defs → AreServed defs → PagesStandFor shape pages db
        → OnlyPutsByText statement → StepRunsFull shape pages defs statement → shape.extents < need shape (step db statement).0 }
{}

/// A bound CREATE TABLE, CREATE INDEX or INSERT that is done on tight pages leaves tight pages, by what the engine says of the table
/// that comes, of the record index that one gains, or of where rows went, and of the other tables.
pub fn bound_statements_leave_tight_pages()
    ensures create { (shape : Shape) (old new : PageList) (view now : DatabaseView) (defs defs_now : Definitions) (db : Database) (def : TableDef)
        → KeepAllRules shape old view → AreTightPages shape old view → KeepAllRules shape new now → AreStored old defs → AreStored new defs_now → PagesStandFor shape old db
        → PagesStandFor shape new (effect db (bound.CreateTable def)).0 → OnlyPuts db (bound.CreateTable def) → def.indexes ≡ [] → KeepsOthers shape old new defs defs_now None
        → AreTightPages shape new now }
    ensures index { (shape : Shape) (old new : PageList) (view now : DatabaseView) (defs defs_now : Definitions) (db : Database) (place : ℕ) (index : IndexDef) (def : TableDef)
        → KeepAllRules shape old view → AreTightPages shape old view → KeepAllRules shape new now → AreStored old defs → AreStored new defs_now → PagesStandFor shape old db
        → PagesStandFor shape new (effect db (bound.CreateIndex place index)).0 → def_at defs place ≡ Some def → KeepsOthers shape old new defs defs_now (Some place)
        → AreTightPages shape new now }
    ensures insert { (shape : Shape) (old new : PageList) (view now : DatabaseView) (defs defs_now : Definitions) (db : Database) (place : ℕ) (tuples : List (List Value)) (mode : RolloutMode) (def : TableDef)
        → KeepAllRules shape old view → AreTightPages shape old view → KeepAllRules shape new now → AreStored old defs → AreStored new defs_now → PagesStandFor shape old db
        → PagesStandFor shape new (effect db (bound.Insert place tuples)).0 → IsValid (effect db (bound.Insert place tuples)).0 → def_at defs place ≡ Some def
        → KeepsOthers shape old new defs defs_now (Some place) → PlacesOnPages shape old new mode def (bound.Insert place tuples) → AreTightPages shape new now }
{}

/// A CREATE TABLE, a CREATE INDEX or an INSERT that the engine answers as done on tight pages leaves tight pages.
pub fn statements_leave_tight_pages<P: Pages>()
    ensures { (old new : P) (before now : Tables) (statement : Stmt) (reply : Reply) (view after : DatabaseView) (db : Database)
        → DoesStep P.Pages old new before now statement (said.Done reply) → OnlyPutsByText statement → AreServed before.catalog → now.shape ≡ before.shape
        → AreStored (pages_of P.Pages old) before.catalog → PagesStandFor before.shape (pages_of P.Pages old) db
        → KeepAllRules before.shape (pages_of P.Pages old) view → AreTightPages before.shape (pages_of P.Pages old) view
        → KeepAllRules now.shape (pages_of P.Pages new) after → AreTightPages now.shape (pages_of P.Pages new) after }
{}
