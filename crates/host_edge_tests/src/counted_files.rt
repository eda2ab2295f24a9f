// A file system that stands in for the real one, and counts its syncs and writes.
use std::alloc::Allocator;
use std::cell::Cell;
use std::fs::{Metadata, OpenFile, OpenOptions};
use std::io::{self, Cursor, ErrorKind, Read, Seek, SeekFrom, Write};
use std::path::PathBuf;
use std::rt::Files;

/// A path that is a link, and the folder in which the file that it leads to has its name.
pub const LINK: &str = "link.mdc";

const FOLDER: &str = "/elsewhere";

const FILE: &str = "/elsewhere/new.mdc";

// The numbers of the system's errors with which syncs of the file and of its folder fail.
pub const FILE_ERROR: i32 = 5;

pub const FOLDER_ERROR: i32 = 13;

// How many bytes a write takes at most.
const MOST_TAKEN: usize = 4;

/// What was called of the files so far, which syncs fail, and the bytes that the file holds.
#[derive(Drop)]
pub struct Calls {
    pub file_syncs: Cell<u64>,
    pub folder_syncs: Cell<u64>,
    pub writes: Cell<u64>,
    pub file_fails: Cell<bool>,
    pub folder_fails: Cell<bool>,
    pub bytes: Cell<[u8; 16]>,
}

impl Calls {
    pub fn new() -> Calls {
        Calls {
            file_syncs: Cell::new(0),
            folder_syncs: Cell::new(0),
            writes: Cell::new(0),
            file_fails: Cell::new(false),
            folder_fails: Cell::new(false),
            bytes: Cell::new([0; 16]),
        }
    }
}

/// One file, to which the link leads, and its folder.
#[derive(Clone, Copy, Drop)]
pub struct CountedFiles<'a> {
    pub calls: &'a Calls,
}

/// The file or its folder. It reads as zeros, whatever was written.
#[derive(Drop)]
pub struct CountedFile<'a> {
    calls: &'a Calls,
    is_folder: bool,
    place: u64,
}

// Counts one call more.
fn count(calls: &Cell<u64>) {
    calls.set(calls.get().saturating_add(1));
}

impl Read for CountedFile<'_> {
    fn read(&mut self, out: &mut [u8]) -> io::Result<usize> {
        Ok(out.len())
    }
}

impl Write for CountedFile<'_> {
    fn write(&mut self, bytes: &[u8]) -> io::Result<usize> {
        count(&self.calls.writes);
        let mut file = Cursor::new(self.calls.bytes.get());
        file.set_position(self.place);
        let taken = file.write(&bytes[..bytes.len().min(MOST_TAKEN)])?;
        self.place = file.position();
        self.calls.bytes.set(file.into_inner());
        Ok(taken)
    }

    fn flush(&mut self) -> io::Result<()> {
        Ok(())
    }
}

impl Seek for CountedFile<'_> {
    fn seek(&mut self, to: SeekFrom) -> io::Result<u64> {
        if let SeekFrom::Start(place) = to {
            self.place = place;
        }
        Ok(self.place)
    }
}

// Answers a sync, which may be one that fails with an error of the system.
fn failing(fails: bool, error: i32) -> io::Result<()> {
    if fails {
        Err(io::Error::from_raw_os_error(error))
    } else {
        Ok(())
    }
}

impl OpenFile for CountedFile<'_> {
    fn metadata(&self) -> io::Result<Metadata> {
        Err(ErrorKind::Unsupported.into())
    }

    fn set_len(&self, _size: u64) -> io::Result<()> {
        Err(ErrorKind::Unsupported.into())
    }

    fn sync_all(&self) -> io::Result<()> {
        if self.is_folder {
            count(&self.calls.folder_syncs);
            return failing(self.calls.folder_fails.get(), FOLDER_ERROR);
        }
        count(&self.calls.file_syncs);
        failing(self.calls.file_fails.get(), FILE_ERROR)
    }

    fn sync_data(&self) -> io::Result<()> {
        Err(ErrorKind::Unsupported.into())
    }
}

impl<'a> Files for CountedFiles<'a> {
    type File = CountedFile<'a>;

    type Dir = Cursor<[u8; 0]>;

    fn open_file(&self, _how: &OpenOptions, path: &str) -> io::Result<CountedFile<'a>> {
        if path != LINK && path != FOLDER {
            return Err(ErrorKind::NotFound.into());
        }
        Ok(CountedFile {
            calls: self.calls,
            is_folder: path == FOLDER,
            place: 0,
        })
    }

    fn canonicalize<B: Allocator>(&self, alloc: B, path: &str) -> io::Result<PathBuf<B>> {
        if path != LINK {
            return Err(ErrorKind::NotFound.into());
        }
        Ok(PathBuf::from_str(alloc, FILE)?)
    }

    fn open_dir(&self, _path: &str) -> io::Result<Cursor<[u8; 0]>> {
        Err(ErrorKind::Unsupported.into())
    }

    fn metadata(&self, _path: &str) -> io::Result<Metadata> {
        Err(ErrorKind::Unsupported.into())
    }

    fn symlink_metadata(&self, _path: &str) -> io::Result<Metadata> {
        Err(ErrorKind::Unsupported.into())
    }

    fn copy(&self, _from: &str, _to: &str) -> io::Result<u64> {
        Err(ErrorKind::Unsupported.into())
    }

    fn rename(&self, _from: &str, _to: &str) -> io::Result<()> {
        Err(ErrorKind::Unsupported.into())
    }

    fn remove_file(&self, _path: &str) -> io::Result<()> {
        Err(ErrorKind::Unsupported.into())
    }

    fn create_dir(&self, _path: &str) -> io::Result<()> {
        Err(ErrorKind::Unsupported.into())
    }

    fn remove_dir(&self, _path: &str) -> io::Result<()> {
        Err(ErrorKind::Unsupported.into())
    }

    fn remove_dir_all<B: Allocator>(&self, _alloc: B, _path: &str) -> io::Result<()> {
        Err(ErrorKind::Unsupported.into())
    }
}
