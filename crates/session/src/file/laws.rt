// What holds of the files that a making and a run leave, and of the next run on them.
ghost use Rattle.std.specs.Prelude.{◌≡◌, ◌⊎◌, ℕ, List, Option, Some, Result, IsTrue};
ghost use Rattle.mdc_ast.specs.declared.reply.Outcome.{Outcome};
ghost use Rattle.mdc_ast.specs.Reading.{Item};
ghost use Rattle.mdc_ast.specs.Database.{empty_database};
ghost use Rattle.statement_meaning.specs.Session.{session_on};
ghost use Rattle.mdc_outside.specs.Disk.{File, IsImage, all_synced};
ghost use Rattle.store_api.specs.Extents.{is_shape};
ghost use Rattle.store_api.specs.declared.shape.Shape.{Shape};
ghost use Rattle.table_trees.specs.ToldPages.{PageList};
ghost use Rattle.mdc_sound.specs.StandsForDatabase.{PagesStandFor};
ghost use Rattle.page_store.specs.Fresh.{HoldsFresh, fresh_file};
ghost use Rattle.page_store.specs.Standing.{pages_in};
ghost use Rattle.script_engine.specs.Held.{HeldPages};
ghost use Rattle.file_verdict.specs.SoundFile.{StatesExtents};
ghost use Rattle.session.specs.script.Going.{Stage};
ghost use Rattle.session.specs.script.Lists.{IsKeptDatabase};
ghost use Rattle.session.specs.declared.script.served.Served.{Served};
ghost use Rattle.session.specs.file.Leaving.{LeftByRun};
ghost use Rattle.session.specs.file.Serving.{RunsItems, RunsOnFile};
ghost use Rattle.session.specs.file.Well.{AreWell, IsWell};
ghost use Rattle.session.specs.declared.stop.Stop.{Stop};

use crate::file::made::made_database_is_sound;
use mdc_outside::Host;
use mdc_sound::pages_stand_for_one;

/// A file that was just made is well, and so is each image that a crash may leave of it once it is made. In whatever extents it
/// states, it stands for the database with no table.
pub fn made_is_well()
    ensures well { (extents extent_pages : ℕ) (file : List ℕ) → IsTrue (is_shape extents extent_pages) → file ≡ fresh_file extents extent_pages → IsWell file }
    ensures each { (extents extent_pages : ℕ) (file : File) → IsTrue (is_shape extents extent_pages) → HoldsFresh extents extent_pages file → AreWell file }
    ensures stands { (extents extent_pages : ℕ) (file : List ℕ) → IsTrue (is_shape extents extent_pages) → file ≡ fresh_file extents extent_pages
        → (shape : Shape) → StatesExtents file shape → PagesStandFor shape (pages_in file) empty_database }
{
    made_database_is_sound();
}

/// What a crash within a run leaves is well, so that the next run keeps its promise too.
pub fn left_by_run_is_well()
    ensures { (shape : Shape) (held : HeldPages) (stages : List Stage) (outcomes : List Outcome) (in_hand : List Item) (said image tape : List ℕ)
        → LeftByRun shape held stages outcomes in_hand said image tape → IsWell image }
{}

/// The next run goes on from what the run before kept. On an image that a crash within a run leaves, it begins with the database that
/// the run over plain lists keeps after so many items as `LeftByRun` says: each whose reply had begun, and at most one more than those
/// whose reply was said whole. On what a crash leaves before a run comes to its origin, of a file that was all on the disk, it begins
/// with the same database.
pub fn next_run_goes_on()
    ensures kept { (shape now : Shape) (pages : PageList) (said said_next : List ℕ) (script left tape script_next left_next tape_next : Option (List ℕ)) (result result_next : Result Served Stop)
        → (run : RunsItems shape pages said script left tape result) (image told : List ℕ) (crash : LeftByRun shape run.held run.stages run.outcomes run.in_hand said image told)
        → StatesExtents image now → (next : RunsItems now (pages_in image) said_next script_next left_next tape_next result_next)
        → IsKeptDatabase shape.extents (session_on run.db) run.sessions run.in_hand crash.left.items next.db }
    ensures same { (before : File) (shape now : Shape) (said said_next : List ℕ) (script left tape script_next left_next tape_next : Option (List ℕ)) (result result_next : Result Served Stop)
        → before.since ≡ all_synced before.bytes → StatesExtents before.bytes shape → (run : RunsItems shape (pages_in before.bytes) said script left tape result)
        → (image : List ℕ) → IsImage before.since image → StatesExtents image now → (next : RunsItems now (pages_in image) said_next script_next left_next tape_next result_next)
        → next.db ≡ run.db }
{
    // Pages stand for one database.
    pages_stand_for_one();
}

/// A file of which all is on the disk, as one that is found after a crash, is well where its bytes are: nothing else can be left of it.
/// So any number of runs and crashes keep the promise.
pub fn left_file_is_well()
    ensures { (file : File) → file.since ≡ all_synced file.bytes → IsWell file.bytes → AreWell file }
{}

/// After a run that ended, each image that could be left of its file, and so the file as it reads, is one that the run leaves with all
/// that was said. Or the run stopped before its origin, and the image could be left before it.
pub fn ended_run_is_left<H: Host>()
    ensures { (old new : H) (before after : File) (said heard : List ℕ) (script left : Option (List ℕ)) (result : Result Served Stop)
        → H.file old ≡ Some before → (H.beside old).tape ≡ Some said → H.file new ≡ Some after → (H.beside new).tape ≡ Some heard
        → (log now : Option (List ℕ)) (runs : RunsOnFile H.Disk before said script left old new result log now) (image : List ℕ) → IsImage after.since image
        → LeftByRun runs.shape runs.run.held runs.run.stages runs.run.outcomes runs.run.in_hand said image heard ⊎ IsImage before.since image }
{}
