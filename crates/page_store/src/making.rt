// How an empty database is made.
ghost use Rattle.std.specs.Prelude.{◌≡◌, ◌⊎◌, ◌<◌, ◌+◌, ◌-◌, ◌*◌, ◌^◌, [], ◌∷◌, ◌++◌, length, Some, IsTrue, IsErrOf, OnOk, OnErr, IsErr};
ghost use Rattle.std.specs.Option.{option_map, ForSome};
ghost use Rattle.mdc_outside.specs.Disk.{File, torn, written, settled};
ghost use Rattle.mdc_words.specs.Faults.{CountsFault};
ghost use Rattle.page_file.specs.Bound.{RunsOf};
ghost use Rattle.page_file.specs.Runs.{IsWithin, IsCovered, Between};
ghost use Rattle.page_file.specs.Bound.{LeavesOf};
ghost use Rattle.page_store.specs.Empty.{IsEmptyDatabase};
ghost use Rattle.page_store.specs.Fresh.{HoldsFresh, IsOfMaking, file_with, fresh_len, front_with, root_page, zero_pages};
ghost use Rattle.store_api.specs.Extents.{is_shape, first_count, map_pages};
ghost use Rattle.page_store.specs.Growing.{GrewByCalls};
ghost use Rattle.page_file.specs.Layout.{home_start, page_start};

use crate::OpenFault;
use crate::fresh::{behind_made, birth_page, first_count, root_page};
use mdc_outside::{Disk, Failed};
use page_file::{FIRST_PAGE, PAGE_BYTES, end_of, fill, put, settle};

// The made byte of a whole file.
pub(crate) const MADE: u8 = 0x4d;

const UNMADE: u8 = 0;

// The file page of the root page.
pub(crate) const ROOT: u64 = FIRST_PAGE;

// How many pages a log has.
const LOG_PAGES: u32 = 64;

/// Makes an empty database in the attached file, which may grow to so many extents of so many pages. All of it is on the
/// disk then.
///
/// It answers `Exists` where the file has a byte, and `Device` where the disk failed. A file that has a byte is never
/// written to. Of one that has none, a failure or a crash leaves a file that isn't made, or the whole one.
pub fn make<D: Disk>(disk: &mut D, extents: u32, extent_pages: u32) -> Result<(), OpenFault>
    requires attached { IsTrue (D.is_attached disk.old) }
    requires shape { IsTrue (is_shape extents extent_pages) }
    ensures made { OnOk result (ForSome (D.file disk.new) (HoldsFresh extents extent_pages)) }
    ensures empty { OnOk result (ForSome (D.file disk.new) (λ file. IsEmptyDatabase extents file.bytes)) }
    ensures exists { IsErrOf result OpenFault.Exists → ForSome (D.file disk.old) (λ file. 0 < length file.bytes) }
    ensures as_before { IsErrOf result OpenFault.Exists → D.file disk.new ≡ D.file disk.old }
    ensures untouched { ForSome (D.file disk.old) (λ file. 0 < length file.bytes → D.file disk.new ≡ D.file disk.old) }
    ensures refused { ForSome (D.file disk.old) (λ file. 0 < length file.bytes → IsErrOf result OpenFault.Exists ⊎ IsErrOf result OpenFault.Device) }
    ensures causes { OnErr result (IsErrOf result OpenFault.Exists ⊎ IsErrOf result OpenFault.Device) }
    ensures cause { CountsFault (IsErrOf result OpenFault.Device) (D.disk_faults disk.old) (D.disk_faults disk.new) }
    ensures leaves { LeavesOf D.Disk (IsOfMaking extents extent_pages) disk.old disk.new }
    // It is no longer than the whole, or than a crash could leave it before.
    ensures grew { (before after : File) → D.file disk.old ≡ Some before → D.file disk.new ≡ Some after
        → GrewByCalls (IsErrOf result OpenFault.Device) before after.bytes }
{
    if end_of(disk)? > 0 {
        return Err(OpenFault::Exists);
    }
    Ok(write_database(disk, extents, extent_pages)?)
}

// Writes a database into an empty file. The made byte is written open only when all else is on the disk.
fn write_database<D: Disk>(disk: &mut D, extents: u32, extent_pages: u32) -> Result<(), Failed>
    requires attached { IsTrue (D.is_attached disk.old) }
    requires empty { ForSome (D.file disk.old) (λ file. length file.bytes ≡ 0) }
    ensures made { OnOk result (ForSome (D.file disk.new) (HoldsFresh extents extent_pages)) }
    ensures leaves { LeavesOf D.Disk (IsOfMaking extents extent_pages) disk.old disk.new }
    ensures cause { CountsFault (IsErr result) (D.disk_faults disk.old) (D.disk_faults disk.new) }
{
    set_made(disk, UNMADE)?;
    write_pages(disk, extents, extent_pages)?;
    settle(disk)?;
    set_made(disk, MADE)
}

// Writes the made byte, and has it on the disk.
fn set_made<D: Disk>(disk: &mut D, made: u8) -> Result<(), Failed>
    requires attached { IsTrue (D.is_attached disk.old) }
    ensures written { OnOk result (D.file disk.new ≡ option_map (λ file. settled (written 0 (made ∷ []) file)) (D.file disk.old)) }
    ensures runs { RunsOf D.Disk IsWithin (torn 0 1) disk.old disk.new }
    ensures cause { CountsFault (IsErr result) (D.disk_faults disk.old) (D.disk_faults disk.new) }
{
    put(disk, 0, &[made])?;
    settle(disk)
}

// Writes all pages behind a made byte that is shut.
fn write_pages<D: Disk>(disk: &mut D, extents: u32, extent_pages: u32) -> Result<(), Failed>
    requires attached { IsTrue (D.is_attached disk.old) }
    requires begun { ForSome (D.file disk.old) (λ file. file.bytes ≡ 0 ∷ []) }
    ensures written { OnOk result (ForSome (D.file disk.new) (λ file. file.bytes ≡ file_with 0 extents extent_pages)) }
    ensures runs { RunsOf D.Disk IsCovered (torn 1 (fresh_len extents - 1)) disk.old disk.new }
    ensures cause { CountsFault (IsErr result) (D.disk_faults disk.old) (D.disk_faults disk.new) }
{
    write_front(disk, extents, extent_pages)?;
    write_store(disk, extents)
}

// Writes the pages before the root page, behind a made byte that is shut.
fn write_front<D: Disk>(disk: &mut D, extents: u32, extent_pages: u32) -> Result<(), Failed>
    requires attached { IsTrue (D.is_attached disk.old) }
    requires begun { ForSome (D.file disk.old) (λ file. file.bytes ≡ 0 ∷ []) }
    ensures written { OnOk result (ForSome (D.file disk.new) (λ file. file.bytes ≡ front_with 0 extents extent_pages)) }
    ensures runs { RunsOf D.Disk IsCovered (torn 1 (home_start 0 - 1)) disk.old disk.new }
    ensures cause { CountsFault (IsErr result) (D.disk_faults disk.old) (D.disk_faults disk.new) }
{
    append(disk, 1, behind_made())?;
    append(disk, PAGE_BYTES, &birth_page(extents, extent_pages))?;
    append_zeros(disk, 2 * PAGE_BYTES, LOG_PAGES)
}

// Writes the pages of an empty store, from the root page on.
fn write_store<D: Disk>(disk: &mut D, extents: u32) -> Result<(), Failed>
    requires attached { IsTrue (D.is_attached disk.old) }
    requires end { ForSome (D.file disk.old) (λ file. home_start 0 ≡ length file.bytes) }
    ensures written { OnOk result (Between (D.file disk.old) (D.file disk.new) (λ old new. new ≡ old ++ root_page extents ++ zero_pages (16 + map_pages extents))) }
    ensures runs { RunsOf D.Disk IsCovered (torn (home_start 0) (page_start (first_count extents))) disk.old disk.new }
    ensures cause { CountsFault (IsErr result) (D.disk_faults disk.old) (D.disk_faults disk.new) }
{
    append(disk, ROOT * PAGE_BYTES, &root_page(extents))?;
    append_zeros(disk, (ROOT + 1) * PAGE_BYTES, first_count(extents) - 1)
}

// Writes bytes at the end of the file.
fn append<D: Disk>(disk: &mut D, end: u64, bytes: &[u8]) -> Result<(), Failed>
    requires attached { IsTrue (D.is_attached disk.old) }
    requires end { ForSome (D.file disk.old) (λ file. end ≡ length file.bytes) }
    ensures appended { OnOk result (Between (D.file disk.old) (D.file disk.new) (λ old new. new ≡ old ++ bytes.now)) }
    ensures runs { RunsOf D.Disk IsCovered (torn end (length bytes.now)) disk.old disk.new }
    ensures cause { CountsFault (IsErr result) (D.disk_faults disk.old) (D.disk_faults disk.new) }
{
    put(disk, end, bytes)
}

// Writes so many pages of zeros at the end of the file.
fn append_zeros<D: Disk>(disk: &mut D, end: u64, pages: u32) -> Result<(), Failed>
    requires attached { IsTrue (D.is_attached disk.old) }
    requires end { ForSome (D.file disk.old) (λ file. end ≡ length file.bytes) }
    requires low { end < 2 ^ 48 }
    ensures appended { OnOk result (Between (D.file disk.old) (D.file disk.new) (λ old new. new ≡ old ++ zero_pages pages)) }
    ensures runs { RunsOf D.Disk IsCovered (torn end (page_start pages)) disk.old disk.new }
    ensures cause { CountsFault (IsErr result) (D.disk_faults disk.old) (D.disk_faults disk.new) }
{
    fill(disk, end, end + u64::from(pages) * PAGE_BYTES)
}
