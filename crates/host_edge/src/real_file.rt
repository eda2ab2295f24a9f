// A file of the system, until a sync of it fails.
ghost use Rattle.std.specs.Prelude.{◌≡◌, Err, None, IfErr, IfSome, IsSome, Some, MatchOption, IsOk};

use crate::positioned;
use std::fs::OpenFile;
use std::io::{self, Read, Seek, Write};

/// A file of the system. Where a sync fails, the system may forget what it couldn't write, and the next sync may seem to
/// succeed. So the file is lost then, and why is kept: it takes no further write, and answers each call with that fault.
#[derive(Drop)]
pub struct RealFile<F> {
    file: F,
    lost: Option<io::Error>,
}

impl<F: Read + Write + Seek + OpenFile> RealFile<F> {
    /// A file of which no sync has failed.
    pub fn new(file: F) -> RealFile<F>
        ensures { result.lost ≡ None }
    {
        RealFile { file, lost: None }
    }

    /// Fails where a sync has failed, as that one did.
    pub fn check(&self) -> io::Result<()>
        ensures { MatchOption self.now.lost (IsOk result) (λ error. result ≡ Err error) }
    {
        match self.lost {
            None => Ok(()),
            Some(error) => Err(error),
        }
    }

    /// Answers where the file ends.
    pub fn len(&mut self) -> io::Result<u64>
        ensures lost { IfSome self.old.lost (λ error. result ≡ Err error) }
        ensures stays { self.new.lost ≡ self.old.lost }
    {
        self.check()?;
        positioned::len(&mut self.file)
    }

    /// Fills `out` with the bytes from a place on.
    pub fn read_at(&mut self, at: u64, out: &mut [u8]) -> io::Result<()>
        ensures lost { IfSome self.old.lost (λ error. result ≡ Err error) }
        ensures stays { self.new.lost ≡ self.old.lost }
    {
        self.check()?;
        positioned::read_at(&mut self.file, at, out)
    }

    /// Writes all of the bytes from a place on. A file that is lost isn't touched.
    pub fn write_at(&mut self, at: u64, bytes: &[u8]) -> io::Result<()>
        ensures lost { IfSome self.old.lost (λ error. (result ≡ Err error) × (self.new ≡ self.old)) }
        ensures stays { self.new.lost ≡ self.old.lost }
    {
        self.check()?;
        positioned::write_at(&mut self.file, at, bytes)
    }

    /// Has all that was written on the disk, and writes nothing itself. Where that fails, the file is lost.
    pub fn sync(&mut self) -> io::Result<()>
        ensures lost { IfSome self.old.lost (λ error. result ≡ Err error) }
        ensures failed { IfErr result (λ error. self.new.lost ≡ Some error) }
    {
        self.check()?;
        let outcome = self.file.sync_all();
        self.lost = outcome.err();
        outcome
    }
}
