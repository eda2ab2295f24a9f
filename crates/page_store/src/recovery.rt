// What a file that is opened stands for, and how a journal that counts is brought home.
ghost use Rattle.std.specs.Prelude.{◌≡◌, ◌≢◌, ◌≤◌, IsTrue, IfOk, IfErr, OnOk, IsErrOf};
ghost use Rattle.std.specs.Option.{ForSome, option_map};
ghost use Rattle.mdc_words.specs.Faults.{CountsFault};
ghost use Rattle.mdc_outside.specs.Disk.{all_synced};
ghost use Rattle.page_file.specs.Bound.{RunsOf};
ghost use Rattle.page_file.specs.Runs.{IsCovered};
ghost use Rattle.page_file.specs.Bound.{LeavesOf};
ghost use Rattle.page_store.specs.Opened.{file_bytes, opened_bytes};
ghost use Rattle.page_store.specs.Opening.{IsAtRest, IsServed, Refuses, StandsAs};
ghost use Rattle.page_store.specs.Reading.{IsJournalIn, States};
ghost use Rattle.store_api.specs.declared.pages.TheConstants.{MAX_PAGES};

use crate::OpenFault;
use crate::journal::Journal;
use crate::judging::{damaged, judge};
use crate::reading::{read_birth, read_journal, read_root};
use crate::shape::shape_in;
use crate::write_through::bring_home;
use mdc_outside::Disk;
use page_file::end_of;
use std::alloc::Global;
use store_api::Shape;

/// What a file that was opened is: its shape, and how many pages there are.
#[derive(Clone, Copy, Debug)]
pub(crate) struct Opened {
    pub shape: Shape,
    pub count: u32,
}

// A file that can be served, and its journal where one counts.
#[derive(Drop)]
struct Found {
    opened: Opened,
    journal: Option<Journal>,
}

/// Finds what a file stands for, and brings it to rest: a journal that counts is written home and its gate closed. The
/// file then stands for the pages that it stood for before, and a crash at any moment leaves a file that does.
///
/// It answers the first of these that the file is: `Unmade`, `NotMdc`, `Damaged` or of another `Version`. It answers
/// `Memory` where the images of the journal find no room. The file is then as it was. It answers `Device` where the disk
/// failed; the file then still stands for what it stood for.
pub(crate) fn recover<D: Disk>(alloc: Global, disk: &mut D) -> Result<Opened, OpenFault>
    requires attached { IsTrue (D.is_attached disk.old) }
    requires synced { ForSome (D.file disk.old) (λ file. file.since ≡ all_synced file.bytes) }
    ensures served { IfOk result (λ opened. ForSome (D.file disk.old) (λ file. IsServed file.bytes)) }
    ensures at_rest { IfOk result (λ opened. ForSome (D.file disk.new) (IsAtRest opened.shape.extents opened.shape.extent_pages opened.count)) }
    ensures writes { OnOk result (file_bytes (D.file disk.new) ≡ option_map opened_bytes (file_bytes (D.file disk.old))) }
    ensures limits { IfOk result (λ opened. (18 ≤ opened.count) × (opened.count ≤ MAX_PAGES)) }
    ensures refused { IfErr result (λ fault. ForSome (D.file disk.old) (λ file. Refuses fault file.bytes)) }
    ensures untouched { IfErr result (λ fault. fault ≢ OpenFault.Device → D.file disk.new ≡ D.file disk.old) }
    ensures left_alone { IfErr result (λ fault. fault ≢ OpenFault.Device → RunsOf D.Disk IsCovered (λ since. since) disk.old disk.new) }
    ensures unserved { IfErr result (λ fault. ForSome (D.file disk.old) (λ file. (IsServed file.bytes → ⊥) → RunsOf D.Disk IsCovered (λ since. since) disk.old disk.new)) }
    ensures never { IsErrOf result OpenFault.Exists → ⊥ }
    ensures cause { CountsFault (IsErrOf result OpenFault.Device) (D.disk_faults disk.old) (D.disk_faults disk.new) }
    ensures leaves { LeavesOf D.Disk (λ before image. StandsAs before.bytes image) disk.old disk.new }
{
    let found = inspect(alloc, disk)?;
    let opened = found.opened;
    let Some(journal) = found.journal else {
        return Ok(opened);
    };
    bring_home(disk, &journal.images.lend())?;
    Ok(opened)
}

// Reads what the file stands for, and judges it.
fn inspect<D: Disk>(alloc: Global, disk: &mut D) -> Result<Found, OpenFault>
    requires { IsTrue (D.is_attached disk.old) }
    ensures served { IfOk result (λ found. ForSome (D.file disk.old) (λ file. IsServed file.bytes × IsJournalIn found.journal file.bytes × States found.opened file.bytes)) }
    ensures limits { IfOk result (λ found. (18 ≤ found.opened.count) × (found.opened.count ≤ MAX_PAGES)) }
    ensures refused { IfErr result (λ fault. ForSome (D.file disk.old) (λ file. Refuses fault file.bytes)) }
    ensures never { IsErrOf result OpenFault.Exists → ⊥ }
    ensures cause { CountsFault (IsErrOf result OpenFault.Device) (D.disk_faults disk.old) (D.disk_faults disk.new) }
    ensures same { D.file disk.new ≡ D.file disk.old }
    ensures runs { RunsOf D.Disk IsCovered (λ since. since) disk.old disk.new }
{
    let end = end_of(disk)?;
    let Some(birth) = read_birth(disk, end)? else {
        return Err(OpenFault::Unmade);
    };
    let Some(shape) = shape_in(&birth) else {
        return Err(OpenFault::NotMdc);
    };
    let journal = read_journal(alloc, disk)?;
    let Some(root) = read_root(disk, end, &journal)? else {
        return Err(damaged(0));
    };
    match judge(end, shape, &journal, &root) {
        Ok(count) => {
            let opened = Opened { shape, count };
            Ok(Found { opened, journal })
        }
        Err(fault) => Err(fault),
    }
}
