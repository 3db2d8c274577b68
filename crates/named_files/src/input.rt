// What a run reads: standard input, and the file of the snapshot from which it goes on. Both are of one type.

ghost use Rattle.std.specs.Prelude.{◌≡◌, None};
ghost use Rattle.std.specs.Io.{ReadsAtMost};

use std::io::Read;
use std::rt::Files;
use std::{fs, io};

/// What bytes are read from.
#[derive(Drop)]
pub enum Input<I: Read, R: Files> {
    /// Standard input.
    Standard(I),
    /// A file.
    Named(NamedFile<R>),
}

/// The file with a name, which is opened at the first read; so a file that isn't there is a fault of that read.
#[derive(Drop)]
pub struct NamedFile<R: Files> {
    runtime: R,
    name: String,
    file: Option<R::File>,
}

impl<R: Files> NamedFile<R> {
    /// The file with this name, of which nothing was read yet.
    pub fn new(runtime: R, name: String) -> NamedFile<R>
        ensures named { result.name ≡ name }
        ensures unopened { result.file ≡ None }
    {
        NamedFile {
            runtime,
            name,
            file: None,
        }
    }

    // The file, which is opened where it isn't yet.
    fn read_some(&mut self, buf: &mut [u8]) -> io::Result<usize>
        ensures bound { ReadsAtMost result buf.new }
    {
        if self.file.is_none() {
            let file = fs::open(&self.runtime, self.name.as_str())?;
            self.file = Some(file);
        }
        match &mut self.file {
            None => Ok(0),
            Some(file) => file.read(buf),
        }
    }
}

impl<I: Read, R: Files> Read for Input<I, R> {
    fn read(&mut self, buf: &mut [u8]) -> io::Result<usize> {
        match self {
            Input::Standard(input) => input.read(buf),
            Input::Named(file) => file.read_some(buf),
        }
    }
}
