// A file of the system, or one in memory, and standard output.
ghost use Rattle.std.specs.Prelude.{◌≡◌, ◌↔◌, ◌||◌, ◌<◌, ◌≤◌, None, Err, false, is_some, length, refl, IsOk, IsSome, IsTrue, MatchOption, OnOk};
ghost use Rattle.std.specs.Io.KnownBytes.{Appends};
ghost use Rattle.host_edge.specs.Attached.{lost_by};

use crate::faults::Faults;
use crate::last_said::LastSaid;
use crate::positioned;
use crate::real_file::RealFile;
use mdc_outside::{Disk, Failed, Host};
use std::alloc::Global;
use std::fs::{self, OpenFile, OpenOptions};
use std::io::{self, Cursor, ErrorKind, Read, Seek, Write};
use std::path::Path;
use std::rt::Files;

// The path of the scratch file.
const SCRATCH: &str = "-";

// The folder that lies in no other.
const ROOT: &str = "/";

/// The files of the system, and standard output. Each reply is written through before `say` answers. Under the path `-`
/// lies a scratch file in memory, which is there once it was made and lasts as long as the host. It keeps why its calls
/// failed, and what was said last.
#[derive(Drop)]
pub struct FileHost<R: Files, W> {
    alloc: Global,
    files: R,
    output: W,
    attached: Option<Attached<R::File>>,
    scratch: Cursor<Vec<u8>>,
    has_scratch: bool,
    disk_faults: Faults,
    say_faults: Faults,
    last_said: LastSaid,
}

// What is attached.
#[derive(Drop)]
enum Attached<F> {
    File(RealFile<F>),
    Scratch,
}

impl<R: Files + Drop, W: Write + Drop> FileHost<R, W> {
    /// A host with nothing attached. It opens no file.
    pub fn new(alloc: Global, files: R, output: W) -> FileHost<R, W>
        ensures detached { ⟦<FileHost<R, W> as Disk>⟧.is_attached result ≡ false }
        ensures disk_count { ⟦<FileHost<R, W> as Disk>⟧.disk_faults result ≡ 0 }
        ensures say_count { ⟦<FileHost<R, W> as Host>⟧.say_faults result ≡ 0 }
    {
        FileHost {
            alloc,
            files,
            output,
            attached: None,
            scratch: Cursor::new(Vec::new(alloc)),
            has_scratch: false,
            disk_faults: Faults::new(),
            say_faults: Faults::new(),
            last_said: LastSaid::new(),
        }
    }

    /// Why the last call of the disk that failed did: it is there exactly where one has failed.
    pub fn disk_error(&self) -> Option<io::Error>
        ensures { IsSome result ↔ (0 < ⟦<FileHost<R, W> as Disk>⟧.disk_faults self.now) }
    {
        self.disk_faults.last()
    }

    /// Why the last reply that couldn't be said wasn't: it is there exactly where one couldn't.
    pub fn say_error(&self) -> Option<io::Error>
        ensures { IsSome result ↔ (0 < ⟦<FileHost<R, W> as Host>⟧.say_faults self.now) }
    {
        self.say_faults.last()
    }

    /// Lends the bytes of the last reply, or none where it had more than 64.
    pub fn last_said(&self) -> &[u8]
        ensures { length result.now ≤ 64 }
    {
        self.last_said.bytes()
    }
}

impl<R: Files + Drop, W: Write + Drop> Disk for FileHost<R, W> {
    ghost file = { λ _. None };

    ghost beside = { λ host. record { tape = None; say_faults = host.say_faults.count } };

    ghost attaches = { λ _. None };

    ghost is_attached = { λ host. is_some host.attached };

    ghost disk_faults = { λ host. host.disk_faults.count };

    ghost clock = { λ _. 0 };

    ghost moment = { λ _ _ _ _. ⊥ };

    ghost sound = { λ _. tt };

    ghost only_now = { λ _. tt };

    ghost earlier = { λ _ _ _ _ _ _ _ may. may };

    fn attach(&mut self, path: &str, make: bool) -> Result<(), Failed> {
        let found = match check(&self.attached) {
            Err(error) => Err(error),
            Ok(()) if path == SCRATCH => scratch(&mut self.has_scratch, make),
            Ok(()) => open(self.alloc, &self.files, path, make),
        };
        self.attached = Some(self.disk_faults.counted(found)?);
        Ok(())
    }

    fn len(&mut self) -> Result<u64, Failed> {
        let outcome = match self.attached.as_mut().unwrap() {
            Attached::File(file) => file.len(),
            Attached::Scratch => positioned::len(&mut self.scratch),
        };
        self.disk_faults.counted(outcome)
    }

    fn read(&mut self, at: u64, out: &mut [u8]) -> Result<(), Failed> {
        let outcome = match self.attached.as_mut().unwrap() {
            Attached::File(file) => file.read_at(at, out),
            Attached::Scratch => positioned::read_at(&mut self.scratch, at, out),
        };
        self.disk_faults.counted(outcome)
    }

    fn write(&mut self, at: u64, bytes: &[u8]) -> Result<(), Failed> {
        let outcome = match self.attached.as_mut().unwrap() {
            Attached::File(file) => file.write_at(at, bytes),
            Attached::Scratch => positioned::write_at(&mut self.scratch, at, bytes),
        };
        self.disk_faults.counted(outcome)
    }

    fn sync(&mut self) -> Result<(), Failed> {
        let outcome = match self.attached.as_mut().unwrap() {
            Attached::File(file) => file.sync(),
            Attached::Scratch => Ok(()),
        };
        self.disk_faults.counted(outcome)
    }
}

impl<R: Files + Drop, W: Write + Drop> Host for FileHost<R, W> {
    ghost tape = { λ _. None };

    ghost say_faults = { λ host. host.say_faults.count };

    ghost lies_beside = { λ _. (refl, refl) };

    fn say(&mut self, bytes: &[u8]) -> Result<(), Failed> {
        self.last_said.keep(bytes);
        let outcome = write_through(&mut self.output, bytes);
        self.say_faults.counted(outcome)
    }
}

// Fails where a sync of the attached file has failed, as that one did: opened anew, the file may seem whole.
fn check<F: Read + Write + Seek + OpenFile>(attached: &Option<Attached<F>>) -> io::Result<()>
    ensures { MatchOption (lost_by attached.now) (IsOk result) (λ error. result ≡ Err error) }
{
    match attached {
        Some(Attached::File(file)) => file.check(),
        Some(Attached::Scratch) | None => Ok(()),
    }
}

// The scratch file, if it is there or is to be made.
fn scratch<F: Drop>(is_there: &mut bool, make: bool) -> io::Result<Attached<F>>
    ensures there { is_there.new ≡ (is_there.old || make) }
    ensures found { IsOk result ↔ IsTrue is_there.new }
{
    *is_there = *is_there || make;
    if *is_there {
        Ok(Attached::Scratch)
    } else {
        Err(ErrorKind::NotFound.into())
    }
}

// The file at the path, or the empty one that is made there. A sync of a file doesn't reach its name, so the folder in
// which the name of a file that may be new stands is synced too. Where the path is a link, that is the folder it leads to.
fn open<R: Files>(
    alloc: Global,
    files: &R,
    path: &str,
    make: bool,
) -> io::Result<Attached<R::File>> {
    let file = OpenOptions::new()
        .read(true)
        .write(true)
        .create(make)
        .open(files, path)?;
    if make {
        let name = files.canonicalize(alloc, path)?;
        let folder = name.parent().unwrap_or(Path::new(ROOT));
        fs::open(files, folder)?.sync_all()?;
    }
    Ok(Attached::File(RealFile::new(file)))
}

// Writes all of the bytes, past any buffer.
fn write_through<W: Write>(output: &mut W, bytes: &[u8]) -> io::Result<()>
    ensures { OnOk result (Appends (W.contents output.old) (W.contents output.new) bytes.now) }
{
    output.write_all(bytes)?;
    output.flush()
}
