//! Words of a call, and the text of its result.

use crate::fault::Fault;
use bolt_format::{MemSink, Sink};
use bolt_text::read_number;
use std::alloc::{AllocError, Global};

/// What a verb is given, and where it gets memory.
#[derive(Clone, Copy)]
pub struct Input<'a> {
    pub alloc: Global,
    pub file: &'a [u8],
    pub words: &'a [String],
}

/// A number in decimal.
pub fn number(word: &str) -> Result<u64, Fault> {
    read_number(word.as_bytes()).ok_or(Fault::UNREAD)
}

/// The bytes of a word in hexadecimal.
pub fn bytes_of(alloc: Global, word: &str) -> Result<Vec<u8>, Fault> {
    Ok(hex::decode(alloc, word)?)
}

/// The keys of a path in hexadecimal, which are separated by slashes; `.` has none.
pub fn keys_of(alloc: Global, path: &str) -> Result<Vec<Vec<u8>>, Fault> {
    let mut keys = Vec::new(alloc);
    if path != "." {
        for word in path.split('/') {
            keys.push(bytes_of(alloc, word)?)?;
        }
    }
    Ok(keys)
}

/// Keys as slices.
pub fn slices_of<'a>(alloc: Global, keys: &'a [Vec<u8>]) -> Result<Vec<&'a [u8]>, AllocError> {
    let mut slices = Vec::new(alloc);
    for key in keys {
        slices.push(key.as_slice())?;
    }
    Ok(slices)
}

/// What a verb prints. If memory runs out for a part, that part is missing, and the text isn't whole.
#[derive(Drop)]
pub struct Text {
    pub alloc: Global,
    pub sink: MemSink,
    pub is_whole: bool,
}

impl Text {
    /// No text.
    pub fn new(alloc: Global) -> Self {
        Text {
            alloc,
            sink: MemSink::new(alloc),
            is_whole: true,
        }
    }

    /// Adds bytes to the last word.
    pub fn add(&mut self, bytes: &[u8]) {
        self.is_whole &= self.sink.put(bytes).is_ok();
    }

    /// Adds a word to a line of them.
    pub fn word(&mut self, word: &[u8]) {
        if !self.sink.bytes().is_empty() {
            self.add(b" ");
        }
        self.add(word);
    }

    /// Adds to the last word what was made of a value, if there was memory for that.
    pub fn made(&mut self, made: Result<String, AllocError>) {
        match made {
            Ok(made) => self.add(made.as_bytes()),
            Err(AllocError) => self.is_whole = false,
        }
    }

    /// Adds a number to the last word.
    pub fn digits(&mut self, number: u64) {
        self.made(format!(in self.alloc; "{number}"));
    }

    /// Adds numbers to a line of words.
    pub fn numbers(&mut self, numbers: &[u64]) {
        for number in numbers {
            self.word(b"");
            self.digits(*number);
        }
    }
}
