ghost use Rattle.std.specs.Prelude.{◌≡◌, None};

use crate::{DiskOver, FileCalls};
use std::fs::{OpenFile, OpenOptions};
use std::io::{Read, Seek, SeekFrom, Write};
use std::marker::Model;
use std::path::Path;
use std::rt::Files;
use std::{fs, io};

/// A file of the system as a disk. It is opened at the first call, and made without bytes where it isn't there. Its
/// folder is synced then, so that the entry of a new file is there after a crash. An opening that fails is a fault, as
/// is each call that the system refuses. It tells nothing of what it holds. That it keeps what the trait says of images
/// is a property of an honest disk that nobody else writes; no clause says it.
pub type FileDisk<R> = DiskOver<SystemFile<R>>;

impl<R: Files> DiskOver<SystemFile<R>> {
    /// A disk over the file of this path, which isn't opened yet.
    pub fn new(runtime: R, path: String) -> Self
        ensures { result ≡ record { inner = tt; faults = 0 } }
    {
        DiskOver::over(SystemFile {
            runtime,
            path,
            opened: None,
        })
    }
}

/// A file of the system, which is opened when it is needed. It tells nothing of what it holds: each call is one of
/// the system's, at a place that is sought first, and what the system does is trusted.
#[derive(Drop)]
pub struct SystemFile<R: Files> {
    runtime: R,
    path: String,
    opened: Option<R::File>,
}

impl<R: Files> Model for SystemFile<R> {
    ghost use Rattle.std.specs.Prelude.{⊤};

    ghost Value = { ⊤ };

    ghost view = { λ file. tt };
}

impl<R: Files> SystemFile<R> {
    // The file, which is opened where it isn't open yet, and made where it isn't there. Its folder is synced once.
    fn opened(&mut self) -> io::Result<&mut R::File> {
        if let Some(file) = self.opened.take() {
            return Ok(self.opened.insert(file));
        }
        let file = OpenOptions::new()
            .read(true)
            .write(true)
            .create(true)
            .open(&self.runtime, self.path.as_str())?;
        sync_folder(&self.runtime, self.path.as_str())?;
        Ok(self.opened.insert(file))
    }

    // The file, whose next read or write is at this place.
    fn opened_at(&mut self, at: u64) -> io::Result<&mut R::File> {
        let file = self.opened()?;
        file.seek(SeekFrom::Start(at))?;
        Ok(file)
    }
}

impl<R: Files> FileCalls for SystemFile<R> {
    ghost seen = { λ file. None };

    ghost size = { λ file. None };

    ghost may_leave = { λ file image. ⊥ };

    ghost clock = { λ file. 0 };

    ghost left_since = { λ file t image. ⊥ };

    ghost counts_now = { λ file t image le now. now };

    ghost only_now = { λ file image left. left };

    ghost reads_as_image = { λ file. tt };

    ghost tells_size = { λ file. tt };

    fn len(&mut self) -> io::Result<u64> {
        Ok(self.opened()?.metadata()?.len())
    }

    fn read_once(&mut self, at: u64, buf: &mut [u8]) -> io::Result<usize> {
        self.opened_at(at)?.read(buf)
    }

    fn write_all_at(&mut self, at: u64, bytes: &[u8]) -> io::Result<()> {
        self.opened_at(at)?.write_all(bytes)
    }

    fn shorten(&mut self, kept: u64) -> io::Result<()> {
        self.opened()?.set_len(kept)
    }

    fn sync_all(&mut self) -> io::Result<()> {
        self.opened()?.sync_all()
    }

    fn moment(&self) -> u64 {
        0
    }
}

// Syncs the folder that the file of this path is in, and so its entry there.
fn sync_folder<R: Files>(runtime: &R, path: &str) -> io::Result<()> {
    let folder = match Path::new(path).parent() {
        Some(folder) => folder.as_str(),
        None => "",
    };
    fs::open(runtime, if folder.is_empty() { "." } else { folder })?.sync_all()
}
