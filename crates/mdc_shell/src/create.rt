// The command `create`: an empty database in a file.
ghost use Rattle.std.specs.Prelude.{◌≡◌, ◌≢◌, ◌⊎◌, ◌≤◌, ◌<◌, ℕ, List, Some, length, IsErrOf, IsTrue, OnOk, OnErr, true};
ghost use Rattle.std.specs.Option.{ForSome};
ghost use Rattle.mdc_outside.specs.Disk.{File};
ghost use Rattle.mdc_outside.specs.Moments.{IsWithinCall};
ghost use Rattle.mdc_outside.specs.Outside.{Takes, TakesPart};
ghost use Rattle.mdc_words.specs.Faults.{CountsFault};
ghost use Rattle.mdc_words.specs.Time.{OverTime};
ghost use Rattle.page_file.specs.Leaving.{LeavesImage};
ghost use Rattle.page_store.specs.Fresh.{IsOfMaking};
ghost use Rattle.page_store.specs.Growing.{GrewByCalls};
ghost use Rattle.session.specs.script.Told.{StaysTold};
ghost use Rattle.store_api.specs.Extents.{is_shape};
ghost use Rattle.mdc_shell.specs.Create.{Completes, Creates, HoldsEmpty, IsLeftByMaking, MayAttach, StaysAsItWas, StaysWhereFull};
ghost use Rattle.mdc_shell.specs.Leaving.{LeftByCreate};
ghost use Rattle.mdc_shell.specs.Status.{status_of_created};

use mdc_outside::{Disk, Failed, Host};
use page_store::{OpenFault, make};
use store_api::Shape;

const MADE: &[u8] = b"OK\n";

/// What is said of a file that has a byte already.
pub(crate) const EXISTS: &[u8] = b"FILE EXISTS\n";

/// How a create ends.
#[derive(Clone, Copy, Debug, PartialEq, Eq)]
pub enum Created {
    /// The database is made, and this is said.
    Made,
    /// The file has a byte already, and this is said.
    Exists,
    /// The disk failed.
    DiskFailed,
    /// The line couldn't be said.
    Unsaid,
}

/// Makes an empty database in the file at the path, and says so once all of it is on the disk. A file that has a byte
/// stays as it is.
pub fn create<H: Host>(host: &mut H, path: &str, shape: Shape) -> Created
    ensures creates { Creates shape.extents shape.extent_pages (H.file host.old) (H.file host.new) (H.tape host.old) (H.tape host.new) (status_of_created result) }
    ensures attaches { MayAttach (H.attaches host.old) path.now true (H.attaches host.new) }
    ensures disk { CountsFault (result ≡ Created.DiskFailed) (H.disk_faults host.old) (H.disk_faults host.new) }
    ensures says { CountsFault (result ≡ Created.Unsaid) (H.say_faults host.old) (H.say_faults host.new) }
    ensures later { H.clock host.old ≤ H.clock host.new }
    ensures told { StaysTold (H.file host.old) (H.file host.new) × StaysTold (H.tape host.old) (H.tape host.new) }
    ensures time { (before : File) (said : List ℕ) → H.file host.old ≡ Some before → H.tape host.old ≡ Some said
        → OverTime H.clock H.moment (LeftByCreate shape.extents shape.extent_pages before said) host.old host.new }
    // It is no longer than it was, or than the database that is made.
    ensures grew { (before after : File) → H.file host.old ≡ Some before → H.file host.new ≡ Some after → GrewByCalls (result ≡ Created.DiskFailed) before after.bytes }
    ensures complete { (result ≡ Created.DiskFailed → ⊥) → (result ≡ Created.Unsaid → ⊥) → Completes (H.file host.old) (status_of_created result) }
{
    match make_at(host, path, shape.extents, shape.extent_pages) {
        Ok(()) => end_with(host, MADE, Created::Made),
        Err(fault) => match fault {
            OpenFault::Exists => end_with(host, EXISTS, Created::Exists),
            _ => Created::DiskFailed,
        },
    }
}

/// Attaches the file at the path, and makes an empty database in it, of so many extents of so many pages.
pub(crate) fn make_at<D: Disk>(
    disk: &mut D,
    path: &str,
    extents: u32,
    extent_pages: u32,
) -> Result<(), OpenFault>
    requires { IsTrue (is_shape extents extent_pages) }
    ensures attached { OnOk result (IsTrue (D.is_attached disk.new)) }
    ensures made { OnOk result (HoldsEmpty extents extent_pages (D.file disk.new)) }
    ensures exists { IsErrOf result OpenFault.Exists → StaysAsItWas (D.file disk.old) (D.file disk.new) }
    ensures untouched { StaysWhereFull (D.file disk.old) (D.file disk.new) }
    ensures refused { ForSome (D.file disk.old) (λ file. 0 < length file.bytes → IsErrOf result OpenFault.Exists ⊎ IsErrOf result OpenFault.Device) }
    ensures causes { OnErr result (IsErrOf result OpenFault.Exists ⊎ IsErrOf result OpenFault.Device) }
    ensures disk { CountsFault (IsErrOf result OpenFault.Device) (D.disk_faults disk.old) (D.disk_faults disk.new) }
    ensures attaches { MayAttach (D.attaches disk.old) path.now true (D.attaches disk.new) }
    ensures beside { D.beside disk.new ≡ D.beside disk.old }
    ensures told { IsLeftByMaking extents extent_pages (D.file disk.old) (D.file disk.new) }
    ensures grew { (before after : File) → D.file disk.old ≡ Some before → D.file disk.new ≡ Some after → GrewByCalls (IsErrOf result OpenFault.Device) before after.bytes }
    ensures later { D.clock disk.old ≤ D.clock disk.new }
    ensures time { (before : File) (said : List ℕ) → D.file disk.old ≡ Some before → (D.beside disk.old).tape ≡ Some said
        → OverTime D.clock D.moment (LeavesImage (IsOfMaking extents extent_pages before) said) disk.old disk.new }
{
    disk.attach(path, true)?;
    make(disk, extents, extent_pages)
}

/// Says the line of an end.
pub(crate) fn end_with<H: Host>(host: &mut H, line: &[u8], end: Created) -> Created
    requires { end ≢ Created.Unsaid }
    ensures said { ((result ≡ end) × Takes (H.tape host.old) line.now (H.tape host.new)) ⊎ ((result ≡ Created.Unsaid) × TakesPart (H.tape host.old) line.now (H.tape host.new)) }
    ensures says { CountsFault (result ≡ Created.Unsaid) (H.say_faults host.old) (H.say_faults host.new) }
    ensures file { H.file host.new ≡ H.file host.old }
    ensures attaches { H.attaches host.new ≡ H.attaches host.old }
    ensures disk_count { H.disk_faults host.new ≡ H.disk_faults host.old }
    ensures time { OverTime H.clock H.moment (IsWithinCall (H.file host.old) (H.tape host.old) line.now) host.old host.new }
{
    match host.say(line) {
        Ok(()) => end,
        Err(Failed) => Created::Unsaid,
    }
}
