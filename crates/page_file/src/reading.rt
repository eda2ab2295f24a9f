// Numbers and pages that are read.
ghost use Rattle.std.specs.Prelude.{◌≡◌, ◌≤◌, ◌+◌, length, take, drop, IsErr, IsTrue, IfOk};
ghost use Rattle.std.specs.Option.{ForSome};
ghost use Rattle.byteorder.specs.Endian.{big_number};
ghost use Rattle.mdc_words.specs.Faults.{CountsFault};
ghost use Rattle.page_file.specs.Bound.{RunsOf};
ghost use Rattle.page_file.specs.declared.layout.TheConstants.{PAGE_BYTES};
ghost use Rattle.page_file.specs.Runs.{IsCovered};

use crate::calls::get;
use byteorder::{BigEndian, ByteOrder};
use mdc_outside::{Disk, Failed};
use store_api::Page;

/// Reads the number of four bytes at a place, the first byte the highest. It changes nothing in the file.
///
/// It answers `Failed` only where the disk did.
pub fn read_number<D: Disk>(disk: &mut D, at: u64) -> Result<u32, Failed>
    requires attached { IsTrue (D.is_attached disk.old) }
    requires within { ForSome (D.file disk.old) (λ file. at + 4 ≤ length file.bytes) }
    ensures number { IfOk result (λ n. ForSome (D.file disk.old) (λ file. n ≡ big_number 4 (drop at file.bytes))) }
    ensures same { D.file disk.new ≡ D.file disk.old }
    ensures runs { RunsOf D.Disk IsCovered (λ since. since) disk.old disk.new }
    ensures cause { CountsFault (IsErr result) (D.disk_faults disk.old) (D.disk_faults disk.new) }
{
    let mut bytes = [0; 4];
    get(disk, at, &mut bytes)?;
    Ok(BigEndian::read_u32(&bytes))
}

/// Reads the page at a place. It changes nothing in the file.
///
/// It answers `Failed` only where the disk did.
pub fn read_page<D: Disk>(disk: &mut D, at: u64) -> Result<Page, Failed>
    requires attached { IsTrue (D.is_attached disk.old) }
    requires within { ForSome (D.file disk.old) (λ file. at + PAGE_BYTES ≤ length file.bytes) }
    ensures page { IfOk result (λ page. ForSome (D.file disk.old) (λ file. page ≡ take PAGE_BYTES (drop at file.bytes))) }
    ensures same { D.file disk.new ≡ D.file disk.old }
    ensures runs { RunsOf D.Disk IsCovered (λ since. since) disk.old disk.new }
    ensures cause { CountsFault (IsErr result) (D.disk_faults disk.old) (D.disk_faults disk.new) }
{
    let mut page = [0; 4096];
    get(disk, at, &mut page)?;
    Ok(page)
}
