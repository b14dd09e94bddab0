//! The files and the streams of the process.
ghost use Rattle.std.specs.Prelude.{⊤};

use bolt_cli::{
    CreateFault, EndFault, OpenFault, OutputFault, Outside, Printer, ReadFault, Source, Stamp,
};
use bolt_format::{MemSink, WriteSink};
use std::fs::{File, Metadata, OpenOptions};
use std::io::{self, BufWriter, Read, Stdout, Write};
use std::os::unix::fs::{MetadataExt, OpenOptionsExt};

/// The number of bytes of output that are gathered before they are written.
const GATHERED: usize = 1 << 16;
/// The number of bytes of a copy that are gathered before they are written.
const COPIED: usize = 1 << 20;
/// The bits of a file's mode that say who may read, write and execute it.
const PERMISSIONS: u32 = 0o777;

/// The files and the streams of the process. It keeps no record of what it did.
#[derive(Drop)]
pub struct Process<'a> {
    pub rt: &'a HostRuntime,
}

impl Process<'_> {
    fn read_source(&self, name: &str) -> io::Result<Source> {
        let mut file = File::open(self.rt, name)?;
        let before = file.metadata()?;
        let mut bytes = Vec::new(self.rt.alloc());
        if before.is_file() {
            bytes.reserve_exact(room_for(before.len()))?;
        }
        file.read_to_end(&mut bytes)?;
        Ok(Source {
            bytes,
            permissions: before.mode() & PERMISSIONS,
            is_regular: before.is_file(),
            before: stamp_of(&before),
            after: stamp_of(&file.metadata()?),
        })
    }

    fn open_first(&self, name: &str, count: u64) -> io::Result<(Vec<u8>, File)> {
        let mut file = File::open(self.rt, name)?;
        let mut bytes = Vec::new(self.rt.alloc());
        read_at_most(&mut file, &mut bytes, count)?;
        Ok((bytes, file))
    }
}

/// The room that a file of this length needs: a byte more, so that its end is seen without more room.
fn room_for(length: u64) -> usize {
    usize::try_from(length)
        .unwrap_or(usize::MAX)
        .saturating_add(1)
}

/// Reads the bytes that come next, at most `count`, and appends them.
fn read_at_most(file: &mut File, bytes: &mut Vec<u8>, count: u64) -> io::Result<()> {
    file.take(count).read_to_end(bytes)?;
    Ok(())
}

fn stamp_of(metadata: &Metadata) -> Stamp {
    Stamp {
        length: metadata.len(),
        seconds: metadata.mtime(),
        nanoseconds: metadata.mtime_nsec(),
    }
}

impl Outside for Process<'_> {
    type File = File;

    type Target = WriteSink<BufWriter<File>>;

    type Output = WriteSink<BufWriter<Printer<Stdout>>>;

    ghost done = { λ _ _. ⊤ };

    fn read(&mut self, name: &str) -> Result<Source, ReadFault> {
        Ok(self.read_source(name)?)
    }

    fn read_first(&mut self, name: &str, count: u64) -> Result<(Vec<u8>, File), ReadFault> {
        Ok(self.open_first(name, count)?)
    }

    fn read_on(
        &mut self,
        mut file: File,
        mut first: Vec<u8>,
        count: u64,
    ) -> Result<Vec<u8>, ReadFault> {
        read_at_most(&mut file, &mut first, count)?;
        Ok(first)
    }

    /// `create_new` follows no link and truncates nothing, so OUT is never FILE, under any name. The
    /// permission bits are set as the file is made: if they were set later, a copy of secrets could
    /// be opened in between.
    fn create(
        &mut self,
        name: &str,
        permissions: u32,
    ) -> Result<WriteSink<BufWriter<File>>, CreateFault> {
        let made = OpenOptions::new()
            .write(true)
            .create_new(true)
            .mode(permissions)
            .open(self.rt, name)?;
        let target = BufWriter::with_capacity(self.rt.alloc(), COPIED, made)?;
        Ok(WriteSink::new(target))
    }

    /// The folder of OUT isn't synced.
    fn end(&mut self, target: WriteSink<BufWriter<File>>) -> Result<(), EndFault> {
        let Ok(file) = target.into_inner().into_inner() else {
            return Err(EndFault);
        };
        file.sync_all().map_err(|_| EndFault)
    }

    fn open(&mut self) -> Result<WriteSink<BufWriter<Printer<Stdout>>>, OpenFault> {
        let printer = Printer::new(self.rt.stdout());
        let output = BufWriter::with_capacity(self.rt.alloc(), GATHERED, printer)?;
        Ok(WriteSink::new(output))
    }

    fn close(&mut self, output: WriteSink<BufWriter<Printer<Stdout>>>) -> Result<(), OutputFault> {
        let mut gathered = output.into_inner();
        let printed = gathered.flush();
        // Without this, what could not be written would be tried again.
        let (printer, _unwritten) = gathered.into_parts();
        printed.map_err(|_| printer.fault())
    }

    fn drop_output(&mut self, output: WriteSink<BufWriter<Printer<Stdout>>>) -> OutputFault {
        let (printer, _unwritten) = output.into_inner().into_parts();
        printer.fault()
    }

    fn say(&mut self, pieces: &[&[u8]]) {
        let mut stderr = self.rt.stderr();
        for piece in pieces {
            let _ = stderr.write_all(piece);
        }
    }

    fn say_instead(&mut self, _text: &MemSink, line: &[u8]) {
        self.say(&[line]);
    }
}
