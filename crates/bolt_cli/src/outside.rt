//! What lies outside of the program: the files and the streams, and what they answer.
ghost use Rattle.std.specs.Prelude.{◌≡◌, List, [], ◌∷◌, IfOk, map};
ghost use Rattle.std.specs.Io.KnownBytes.{IsAtEnd};
ghost use Rattle.std.specs.{IoError.error_kind, Result.result_map_both};
ghost use Rattle.bolt_cli.specs.SystemFaults.{create_fault, read_fault};
ghost use Rattle.bolt_cli.specs.Deeds.{Deed, Read, ReadFirst, ReadOn, Made, Ended, Opened, Closed, Dropped, Said, Lacked, Adds, joined};

use bolt_format::{MemSink, Sink};
use std::io::{self, ErrorKind};

/// The files and the streams. Each method is one deed.
///
/// FILE while it is open, OUT and standard output are lent by value, and can't be dropped: who has one
/// can only give it back to a method that ends it.
pub trait Outside {
    /// FILE while it is open.
    type File;

    /// What a copy is written to.
    type Target: Sink;

    /// Standard output.
    type Output: Sink;

    /// Whether these may be the deeds so far, in order.
    ghost done: { Self → List (Deed Self.Target Self.Output) → Type 0 };

    /// Reads the whole of FILE.
    fn read(&mut self, name: &str) -> Result<Source, ReadFault>
        ensures { Adds (done self.old) (done self.new) (Read name.now result ∷ []) };

    /// Opens FILE, and reads its first bytes, at most `count`: fewer only if FILE has no more.
    fn read_first(&mut self, name: &str, count: u64) -> Result<(Vec<u8>, Self::File), ReadFault>
        ensures { Adds (done self.old) (done self.new)
            (ReadFirst name.now count
            (result_map_both (λ opened. opened.0.items) (λ fault. fault) result) ∷ []) };

    /// Reads the bytes of FILE that follow the first ones, at most `count`: fewer only if FILE has no
    /// more. Returns them after the first ones, and closes FILE.
    fn read_on(
        &mut self,
        file: Self::File,
        first: Vec<u8>,
        count: u64,
    ) -> Result<Vec<u8>, ReadFault>
        ensures { Adds (done self.old) (done self.new)
            (ReadOn first.items count
            (result_map_both (λ bytes. bytes.items) (λ fault. fault) result) ∷ []) };

    /// Makes OUT with these permission bits, unless there is a file of that name. After `Memory` OUT may
    /// have been made, and is empty then.
    fn create(&mut self, name: &str, permissions: u32) -> Result<Self::Target, CreateFault>
        ensures done { Adds (done self.old) (done self.new)
            (Made name.now permissions result ∷ []) }
        ensures empty { IfOk result (λ target. IsAtEnd (Self.Target.taken target)) }
        ensures sound { IfOk result (λ target. Self.Target.failed target ≡ 0) };

    /// Ends OUT. `Ok` means that all that it has accepted is on the disk.
    fn end(&mut self, target: Self::Target) -> Result<(), EndFault>
        ensures { Adds (done self.old) (done self.new) (Ended target result ∷ []) };

    /// Opens standard output. Nothing is printed before.
    fn open(&mut self) -> Result<Self::Output, OpenFault>
        ensures done { Adds (done self.old) (done self.new) (Opened result ∷ []) }
        ensures empty { IfOk result (λ output. IsAtEnd (Self.Output.taken output)) }
        ensures sound { IfOk result (λ output. Self.Output.failed output ≡ 0) };

    /// Prints what standard output has gathered. `Ok` means that all of it is printed.
    fn close(&mut self, output: Self::Output) -> Result<(), OutputFault>
        ensures { Adds (done self.old) (done self.new) (Closed output result ∷ []) };

    /// Drops standard output after a failure: what it has gathered isn't printed. Returns why it
    /// failed.
    fn drop_output(&mut self, output: Self::Output) -> OutputFault
        ensures { Adds (done self.old) (done self.new) (Dropped output result ∷ []) };

    /// Prints a text to standard error, as far as it can.
    fn say(&mut self, pieces: &[&[u8]])
        ensures { Adds (done self.old) (done self.new)
            (Said (joined (map (λ piece. piece.now) pieces.now)) ∷ []) };

    /// Prints this line to standard error, as far as it can, in place of a text for which there was no
    /// memory: the sink that the text was put to has failed.
    fn say_instead(&mut self, text: &MemSink, line: &[u8])
        ensures { Adds (done self.old) (done self.new)
            (Lacked (⟦<MemSink as Sink>⟧.failed text.now) line.now ∷ []) };
}

/// FILE as it was read.
#[derive(Drop)]
pub struct Source {
    /// The bytes of FILE.
    pub bytes: Vec<u8>,
    /// The permission bits of FILE.
    pub permissions: u32,
    /// Whether FILE is a regular file.
    pub is_regular: bool,
    /// What FILE was like before its first byte was read.
    pub before: Stamp,
    /// What it was like after the last one.
    pub after: Stamp,
}

/// What the file system changes whenever a file is written.
#[derive(Clone, Copy)]
pub struct Stamp {
    /// In bytes.
    pub length: u64,
    /// The time of the last change.
    pub seconds: i64,
    pub nanoseconds: i64,
}

impl Source {
    ghost use Rattle.bolt_cli.specs.Sources.{is_changed};

    /// Whether FILE was changed while it was read. Of other files than regular ones it isn't known.
    pub(crate) fn is_changed(&self) -> bool
        ensures { result ≡ is_changed self.now }
    {
        let (before, after) = (self.before, self.after);
        let is_same = before.length == after.length
            && before.seconds == after.seconds
            && before.nanoseconds == after.nanoseconds;
        self.is_regular && !is_same
    }
}

/// Why FILE can't be read.
#[derive(Clone, Copy, Debug)]
pub enum ReadFault {
    /// The file system refused it.
    Refused,
    /// Memory ran out.
    Memory,
}

impl From<io::Error> for ReadFault {
    ghost from_gives = { λ error fault. fault ≡ read_fault (error_kind error) };

    fn from(error: io::Error) -> ReadFault {
        match error.kind() {
            ErrorKind::OutOfMemory => ReadFault::Memory,
            _ => ReadFault::Refused,
        }
    }
}

/// Why OUT can't be made.
#[derive(Clone, Copy, Debug)]
pub enum CreateFault {
    /// The file exists.
    Exists,
    /// The file system refused it.
    Refused,
    /// Memory ran out.
    Memory,
}

impl From<io::Error> for CreateFault {
    ghost from_gives = { λ error fault. fault ≡ create_fault (error_kind error) };

    fn from(error: io::Error) -> CreateFault {
        match error.kind() {
            ErrorKind::AlreadyExists => CreateFault::Exists,
            ErrorKind::OutOfMemory => CreateFault::Memory,
            _ => CreateFault::Refused,
        }
    }
}

/// Not everything that OUT accepted is known to be on the disk.
#[derive(Clone, Copy, Debug)]
pub struct EndFault;

/// There is no memory for what is printed.
#[derive(Clone, Copy, Debug)]
pub struct OpenFault;

impl From<io::Error> for OpenFault {
    fn from(_error: io::Error) -> OpenFault {
        OpenFault
    }
}

/// Why not everything was printed.
#[derive(Clone, Copy, Debug)]
pub enum OutputFault {
    /// The reader of standard output has left: it wants no more.
    ReaderLeft,
    /// Standard output can't be written.
    Failed,
}
