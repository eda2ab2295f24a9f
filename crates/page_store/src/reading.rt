// What is read of a file before it is judged. It changes nothing.
ghost use Rattle.std.specs.Prelude.{◌≡◌, ◌≢◌, length, IsTrue, IfOk, IfErr, IsErrOf, MatchOption, IsErr};
ghost use Rattle.std.specs.Option.{ForSome};
ghost use Rattle.mdc_words.specs.Faults.{CountsFault};
ghost use Rattle.page_file.specs.Bound.{RunsOf};
ghost use Rattle.redo_journal.specs.Faults.{IsDamaged};
ghost use Rattle.page_file.specs.Layout.{file_page};
ghost use Rattle.redo_journal.specs.Layout.{IsJournal, is_open};
ghost use Rattle.page_file.specs.Runs.{IsCovered};
ghost use Rattle.page_store.specs.Fresh.{IsUnmade};
ghost use Rattle.page_store.specs.Opening.{IsMade};
ghost use Rattle.page_store.specs.Reading.{IsJournalIn};
ghost use Rattle.page_store.specs.Standing.{page_of};
ghost use Rattle.page_file.specs.declared.layout.TheConstants.{PAGE_BYTES};

use crate::journal::{Journal, root_image};
use crate::making::{MADE, ROOT};
use mdc_outside::{Disk, Failed};
use page_file::{HEADER, PAGE_BYTES, get, read_number, read_page};
use redo_journal::{ReplayFault, replay};
use std::alloc::Global;
use store_api::Page;

/// Reads the birth page, or nothing where the file isn't made.
pub(crate) fn read_birth<D: Disk>(disk: &mut D, end: u64) -> Result<Option<Page>, Failed>
    requires attached { IsTrue (D.is_attached disk.old) }
    requires end { ForSome (D.file disk.old) (λ file. end ≡ length file.bytes) }
    ensures birth { IfOk result (λ birth. ForSome (D.file disk.old) (λ file. MatchOption birth (IsUnmade file.bytes) (λ page. IsMade file.bytes × (page ≡ file_page file.bytes 1)))) }
    ensures same { D.file disk.new ≡ D.file disk.old }
    ensures runs { RunsOf D.Disk IsCovered (λ since. since) disk.old disk.new }
    ensures cause { CountsFault (IsErr result) (D.disk_faults disk.old) (D.disk_faults disk.new) }
{
    if end < 2 * PAGE_BYTES {
        return Ok(None);
    }
    let mut gate = [0];
    get(disk, 0, &mut gate)?;
    if gate[0] != MADE {
        return Ok(None);
    }
    let birth = read_page(disk, PAGE_BYTES)?;
    Ok(Some(birth))
}

/// Reads the journal, or nothing where its gate isn't open.
pub(crate) fn read_journal<D: Disk>(
    alloc: Global,
    disk: &mut D,
) -> Result<Option<Journal>, ReplayFault>
    requires { IsTrue (D.is_attached disk.old) }
    ensures counting { IfOk result (λ journal. ForSome (D.file disk.old) (λ file. IsJournalIn journal file.bytes)) }
    ensures damaged { IfErr result (λ fault. IsDamaged fault → (fault ≡ ReplayFault.Damaged (record { page = 0; rule = 1 })) × ForSome (D.file disk.old) (λ file. IsTrue (is_open file.bytes) × ¬ IsJournal file.bytes)) }
    ensures cause { CountsFault (IsErrOf result ReplayFault.Device) (D.disk_faults disk.old) (D.disk_faults disk.new) }
    ensures same { D.file disk.new ≡ D.file disk.old }
    ensures runs { RunsOf D.Disk IsCovered (λ since. since) disk.old disk.new }
{
    match replay(alloc, disk) {
        Ok(None) => Ok(None),
        Ok(Some(images)) => {
            let start = read_number(disk, HEADER)?;
            Ok(Some(Journal { start, images }))
        }
        Err(fault) => Err(fault),
    }
}

/// Reads page 0, or nothing where the file ends within it.
pub(crate) fn read_root<D: Disk>(
    disk: &mut D,
    end: u64,
    journal: &Option<Journal>,
) -> Result<Option<Page>, Failed>
    requires attached { IsTrue (D.is_attached disk.old) }
    requires end { ForSome (D.file disk.old) (λ file. end ≡ length file.bytes) }
    requires counting { ForSome (D.file disk.old) (λ file. IsJournalIn journal.now file.bytes) }
    ensures root { IfOk result (λ root. ForSome (D.file disk.old) (λ file. MatchOption root (length (page_of file.bytes 0) ≢ PAGE_BYTES) (λ page. page ≡ page_of file.bytes 0))) }
    ensures same { D.file disk.new ≡ D.file disk.old }
    ensures runs { RunsOf D.Disk IsCovered (λ since. since) disk.old disk.new }
    ensures cause { CountsFault (IsErr result) (D.disk_faults disk.old) (D.disk_faults disk.new) }
{
    if let Some(image) = root_image(journal) {
        return Ok(Some(image));
    }
    if end < (ROOT + 1) * PAGE_BYTES {
        return Ok(None);
    }
    let root = read_page(disk, ROOT * PAGE_BYTES)?;
    Ok(Some(root))
}
