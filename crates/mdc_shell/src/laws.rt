// What holds of every run of which nothing is run, and of every file that was just made.
ghost use Rattle.std.specs.Prelude.{IsTrue, ℕ, List, Option, Some, Result, Err};
ghost use Rattle.mdc_outside.specs.Disk.{File};
ghost use Rattle.store_api.specs.Extents.{is_shape};
ghost use Rattle.store_api.specs.declared.shape.Shape.{Shape};
ghost use Rattle.page_store.specs.Empty.{IsEmptyDatabase};
ghost use Rattle.page_store.specs.Fresh.{HoldsFresh};
ghost use Rattle.page_store.specs.Standing.{pages_in};
ghost use Rattle.file_verdict.specs.SoundFile.{StatesExtents};
ghost use Rattle.session.specs.script.Fetching.{FetchesInRun};
ghost use Rattle.session.specs.declared.script.served.Served.{Served};
ghost use Rattle.session.specs.file.Serving.{RunsItems};
ghost use Rattle.session.specs.file.Well.{AreWell, IsWell};
ghost use Rattle.session.specs.declared.stop.Stop.{Stop};
ghost use Rattle.mdc_shell.specs.Run.{IsStopBefore, RunsScratch, StandsForNothing};
ghost use Rattle.mdc_shell.specs.Status.{status_of};

use script_engine::sound_pages_stand;
use session::{goes_on_lists, made_database_is_sound, made_is_well};

/// A stop before anything is taken of the script is a run of none of its items, which brings no page to hand: on a file that is well, and
/// on a scratch file.
pub(crate) fn nothing_is_run()
    ensures well { (file said : List ℕ) (script : Option (List ℕ)) (stop : Stop) → IsStopBefore stop → (well : IsWell file)
        → (run : RunsItems well.shape (pages_in file) said script script (Some said) (Err stop))
        × ((log : Option (List ℕ)) → FetchesInRun well.shape run.held run.items run.in_hand run.stages log log) }
    ensures scratch { (said : List ℕ) (script : Option (List ℕ)) (stop : Stop) → IsStopBefore stop
        → (log : Option (List ℕ)) → RunsScratch said script script (Some said) (status_of (Err stop)) log log }
{
    sound_pages_stand();
    made_database_is_sound();
}

/// A file that was just made is well, and stands for no table.
pub(crate) fn made_files_are_well()
    ensures { (extents extent_pages : ℕ) (file : File) → IsTrue (is_shape extents extent_pages) → HoldsFresh extents extent_pages file
        → AreWell file × StandsForNothing file.bytes }
{
    made_is_well();
}

/// A run on a scratch file that was just made is one on a database without a table.
pub(crate) fn scratch_runs()
    ensures { (file : File) (shape : Shape) (said : List ℕ) (script left tape : Option (List ℕ)) (end_ : Result Served Stop) → HoldsFresh 4096 4 file
        → IsEmptyDatabase 4096 file.bytes → StatesExtents file.bytes shape → (run : RunsItems shape (pages_in file.bytes) said script left tape end_)
        → (log now : Option (List ℕ)) → FetchesInRun shape run.held run.items run.in_hand run.stages log now
        → RunsScratch said script left tape (status_of end_) log now }
{
    goes_on_lists();
    made_database_is_sound();
}
