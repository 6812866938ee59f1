// A disk over a file. It tells no content, only how often it failed.
ghost use Rattle.std.specs.Prelude.{◌≡◌};
ghost use Rattle.definitions.specs.Counts.{Rose};
ghost use Rattle.at_edge.specs.Storing.{Rests};
ghost use Rattle.at_edge.specs.Silent.{silent};

use crate::faults::count_fault;
use crate::{Disk, DiskFault};
use std::fs::{File, Files, OpenFile, OpenOptions};
use std::io;
use std::os::unix::fs::FileExt;

/// The file at a path, opened at the first call, and made where there is none. A call that can't open it fails, and the
/// next one tries again.
#[derive(Drop)]
struct LazyFile<'a, R> {
    files: &'a R,
    path: &'a str,
    opened: Option<File>,
}

impl<R: Files<File = File>> LazyFile<'_, R> {
    fn file(&mut self) -> io::Result<&File> {
        if self.opened.is_none() {
            let mut options = OpenOptions::new();
            options.read(true).write(true).create(true);
            self.opened = Some(options.open(self.files, self.path)?);
        }
        match &self.opened {
            Some(file) => Ok(file),
            None => Err(io::ErrorKind::NotFound.into()),
        }
    }

    fn length(&mut self) -> io::Result<u64> {
        Ok(self.file()?.metadata()?.len())
    }

    fn read(&mut self, at: u64, into: &mut [u8]) -> io::Result<()> {
        self.file()?.read_exact_at(into, at)
    }

    fn write(&mut self, at: u64, from: &[u8]) -> io::Result<()> {
        self.file()?.write_all_at(from, at)
    }

    fn sync(&mut self) -> io::Result<()> {
        self.file()?.sync_all()
    }
}

/// A disk over the file at a path. The first call opens the file, or makes it where there is none. A call for which the
/// file can't be opened is a fault, and the next one tries again.
#[derive(Drop)]
pub struct FileDisk<'a, R> {
    file: LazyFile<'a, R>,
    faults: u64,
}

impl<'a, R: Files<File = File>> FileDisk<'a, R> {
    ghost use Rattle.at_edge.specs.FileViews.{file_seen};

    /// A disk over the file at this path. Nothing is opened yet.
    pub fn new(files: &'a R, path: &'a str) -> Self
        ensures { file_seen result ≡ silent 0 }
    {
        FileDisk {
            file: LazyFile {
                files,
                path,
                opened: None,
            },
            faults: 0,
        }
    }

    /// How many calls have failed.
    pub fn faults(&self) -> u64
        ensures { result ≡ (file_seen self.now).faults }
    {
        self.faults
    }

    fn fault(&mut self) -> DiskFault
        ensures rests { Rests (file_seen self.old) (file_seen self.new) }
        ensures counted { Rose (file_seen self.old).faults (file_seen self.new).faults }
    {
        count_fault(&mut self.faults);
        DiskFault
    }
}

impl<R: Files<File = File>> Disk for FileDisk<'_, R> {
    ghost use Rattle.at_edge.specs.FileViews.{file_seen};

    ghost disk = { file_seen };

    ghost whole = { λ d. tt };

    fn len(&mut self) -> Result<u64, DiskFault> {
        match self.file.length() {
            Ok(length) => Ok(length),
            Err(_) => Err(self.fault()),
        }
    }

    fn read_at(&mut self, at: u64, into: &mut [u8]) -> Result<(), DiskFault> {
        match self.file.read(at, into) {
            Ok(()) => Ok(()),
            Err(_) => Err(self.fault()),
        }
    }

    fn write_at(&mut self, at: u64, from: &[u8]) -> Result<(), DiskFault> {
        match self.file.write(at, from) {
            Ok(()) => Ok(()),
            Err(_) => Err(self.fault()),
        }
    }

    fn sync(&mut self) -> Result<(), DiskFault> {
        match self.file.sync() {
            Ok(()) => Ok(()),
            Err(_) => Err(self.fault()),
        }
    }

    fn disown(&mut self) -> DiskFault {
        self.fault()
    }
}
