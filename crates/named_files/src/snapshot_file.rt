// The file of a snapshot: it is written beside its name, and takes its name once it is whole.

ghost use Rattle.std.specs.Prelude.{◌≡◌, ◌++◌, ◌≤◌, None, codes, string_bytes, IfErr, IfOk, OnOk};
ghost use Rattle.wq_io.specs.Streams.{counted};

use base::OutOfMemory;
use checkpoint::Snapshots;
use std::alloc::Global;
use std::fs::OpenFile;
use std::io::{BufWriter, ErrorKind, Write};
use std::rt::Files;
use std::{fs, io};
use text_output::Unwritten;

/// How many bytes go to the file at once.
const AT_ONCE: usize = 65_536;

/// The name of the file, that of the one beside it, `NAME.new`, and that of their folder.
#[derive(Drop)]
pub struct FileNames {
    name: String,
    beside: String,
    folder: String,
}

impl FileNames {
    /// The names of the file with this name.
    pub fn of(alloc: Global, name: &str) -> Result<FileNames, OutOfMemory>
        ensures name { IfOk result (λ names. string_bytes names.name ≡ name.now) }
        ensures beside { IfOk result (λ names. string_bytes names.beside ≡ name.now ++ codes ".new") }
    {
        let beside = format!(in alloc; "{name}.new")?;
        let Ok(folder) = String::from_str(alloc, folder_of(name)) else {
            drop(beside);
            return Err(OutOfMemory);
        };
        let Ok(name) = String::from_str(alloc, name) else {
            drop(beside);
            drop(folder);
            return Err(OutOfMemory);
        };
        Ok(FileNames {
            name,
            beside,
            folder,
        })
    }
}

// The name of the folder that has the file with this name.
fn folder_of(name: &str) -> &str {
    match name.rsplit_once('/') {
        None => ".",
        Some(("", _)) => "/",
        Some((folder, _)) => folder,
    }
}

/// Keeps a snapshot in a file, in place of the one before: it is written into the file `NAME.new`, by many bytes at once. It tells nothing
/// of its bytes.
#[derive(Drop)]
pub struct SnapshotFile<R: Files> {
    alloc: Global,
    runtime: R,
    names: FileNames,
    file: Option<BufWriter<R::File>>,
    faults: u64,
}

impl<R: Files> SnapshotFile<R> {
    /// Nothing was written yet.
    pub fn new(alloc: Global, runtime: R, names: FileNames) -> SnapshotFile<R>
        ensures { result.faults ≡ 0 }
    {
        SnapshotFile {
            alloc,
            runtime,
            names,
            file: None,
            faults: 0,
        }
    }

    // Makes the file beside the name anew. If memory is refused, it takes the file away again.
    fn create(&mut self) -> io::Result<()>
        ensures { self.new.faults ≡ self.old.faults }
    {
        let file = fs::create(&self.runtime, self.names.beside.as_str())?;
        let Ok(writer) = BufWriter::with_capacity(self.alloc, AT_ONCE, file) else {
            let _ = fs::remove_file(&self.runtime, self.names.beside.as_str());
            return Err(io::Error::from(ErrorKind::OutOfMemory));
        };
        self.file = Some(writer);
        Ok(())
    }

    // Writes the bytes into the file beside the name.
    fn put(&mut self, bytes: &[u8]) -> io::Result<()>
        ensures { self.new.faults ≡ self.old.faults }
    {
        match &mut self.file {
            None => Err(io::Error::from(ErrorKind::NotFound)),
            Some(file) => file.write_all(bytes),
        }
    }

    // Puts what was written on the disk whole, and only then gives it its name: until then the file with this name is as it was. Then the
    // folder is put on the disk, so that the name stays.
    fn publish(&mut self) -> io::Result<()>
        ensures { self.new.faults ≡ self.old.faults }
    {
        match &mut self.file {
            None => return Err(io::Error::from(ErrorKind::NotFound)),
            Some(file) => {
                file.flush()?;
                file.get_ref().sync_all()?;
            }
        }
        fs::rename(
            &self.runtime,
            self.names.beside.as_str(),
            self.names.name.as_str(),
        )?;
        self.file = None;
        fs::open(&self.runtime, self.names.folder.as_str())?.sync_all()
    }

    // A failure is counted, but for a refusal of memory.
    fn judged(&mut self, done: io::Result<()>) -> Result<(), Unwritten>
        ensures quiet { OnOk result (self.new.faults ≡ self.old.faults) }
        ensures failed { IfErr result (λ why. why ≡ Unwritten.WriteFault → self.new.faults ≡ counted self.old.faults) }
        ensures later { self.old.faults ≤ self.new.faults }
    {
        match done {
            Ok(()) => Ok(()),
            Err(error) => match error.kind() {
                ErrorKind::OutOfMemory => Err(Unwritten::OutOfMemory),
                _ => {
                    self.faults = self.faults.saturating_add(1);
                    Err(Unwritten::WriteFault)
                }
            },
        }
    }
}

impl<R: Files> Snapshots for SnapshotFile<R> {
    ghost kept = { λ _. None };

    ghost written = { λ _. None };

    ghost faults = { λ s. s.faults };

    ghost most_faults = { λ _. None };

    fn begin(&mut self) -> Result<(), Unwritten> {
        let done = self.create();
        self.judged(done)
    }

    fn write(&mut self, bytes: &[u8]) -> Result<(), Unwritten> {
        let done = self.put(bytes);
        self.judged(done)
    }

    fn keep(&mut self) -> Result<(), Unwritten> {
        let done = self.publish();
        self.judged(done)
    }

    // Takes the file beside the name away, as far as the file system lets it. The file with the name is as it was.
    fn discard(&mut self) {
        if self.file.is_some() {
            let _ = fs::remove_file(&self.runtime, self.names.beside.as_str());
            self.file = None;
        }
    }

    ghost within_most = { λ _. tt };
}
