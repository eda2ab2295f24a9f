// Calls of a disk that tells nothing, as a real one.
ghost use Rattle.std.specs.Prelude.{◌≡◌, None, IsTrue, OnOk};

use mdc_outside::{Disk, Failed};

// Writes bytes at a place.
fn put<D: Disk>(disk: &mut D, at: u64, bytes: &[u8]) -> Result<(), Failed>
    requires attached { IsTrue (D.is_attached disk.old) }
    requires untold { D.file disk.old ≡ None }
    ensures attached { IsTrue (D.is_attached disk.new) }
    ensures untold { D.file disk.new ≡ None }
{
    disk.write(at, bytes)
}

// Attaches the file at a path, whatever comes of it.
fn attach<D: Disk>(disk: &mut D, path: &str) -> Result<(), Failed>
    requires { D.file disk.old ≡ None }
    ensures attached { OnOk result (IsTrue (D.is_attached disk.new)) }
    ensures untold { D.file disk.new ≡ None }
{
    disk.attach(path, true)
}

/// Makes a file of three writes, of which the second goes over the first, and syncs it.
pub fn write_greeting<D: Disk>(disk: &mut D, path: &str) -> Result<(), Failed>
    requires { D.file disk.old ≡ None }
{
    attach(disk, path)?;
    put(disk, 0, b"hello world")?;
    put(disk, 6, b"there")?;
    put(disk, 11, b"!")?;
    disk.sync()
}

/// The length of the file at a path, and five of its bytes from a place on, if they are there.
pub fn read_word<D: Disk>(
    disk: &mut D,
    path: &str,
    at: u64,
) -> Result<(u64, Result<[u8; 5], Failed>), Failed>
    requires { D.file disk.old ≡ None }
{
    attach(disk, path)?;
    let length = disk.len()?;
    let mut word = [0u8; 5];
    let read = disk.read(at, &mut word);
    Ok((length, read.map(|()| word)))
}
