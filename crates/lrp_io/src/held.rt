// Files in memory, and how far one of them was read.
ghost use Rattle.std.specs.Prelude.{◌≡◌, ◌<◌, ◌+◌, min, length, take, drop, IfSome, IfNone, OnSome, true, false};
ghost use Rattle.lrp_io.specs.Causes.{plus_capped};
ghost use Rattle.lrp_io.specs.Files.{content_of, name_at, bytes_at, holds_file};

use crate::File;
use lrp_model::{Copies, List, Memory};
use std::alloc::Global;

/// Files, and a reader's place in one of them. Of two files of one name the first one is held.
#[derive(Drop)]
pub struct HeldFiles {
    pub files: List<File>,
    pub started: bool,
    pub file: usize,
    pub at: usize,
    pub given: u64,
}

impl HeldFiles {
    ghost use Rattle.lrp_io.specs.Held.{left_of};

    /// None of these files is started.
    pub fn new(files: List<File>) -> HeldFiles
        ensures files { result.files ≡ files }
        ensures stopped { result.started ≡ false }
    {
        HeldFiles {
            files,
            started: false,
            file: 0,
            at: 0,
            given: 0,
        }
    }

    /// Puts the reader at the first byte of the file at this place; after the last file there is
    /// an empty one.
    pub fn open(&mut self, file: usize)
        ensures { self.new ≡ record self.old { started = true; file = file; at = 0; given = 0 } }
    {
        self.started = true;
        self.file = file;
        self.at = 0;
        self.given = 0;
    }

    /// Fills the buffer from its front with the next bytes, at most this many, and says how many.
    pub fn take(&mut self, buf: &mut [u8], most: usize) -> usize
        ensures count { result ≡ min (length buf.old) (min most (length (left_of self.old))) }
        ensures bytes { take result buf.new ≡ take result (left_of self.old) }
        ensures left { left_of self.new ≡ drop result (left_of self.old) }
        ensures given { self.new.given ≡ plus_capped self.old.given result }
        ensures files { self.new.files ≡ self.old.files }
        ensures file { self.new.file ≡ self.old.file }
        ensures started { self.new.started ≡ self.old.started }
    {
        let bytes = bytes_of(self.files.as_slice(), self.file);
        let left = from_place(bytes, self.at);
        let count = buf.len().min(most.min(left.len()));
        buf[..count].copy_from_slice(&left[..count]);
        self.at += count;
        self.given = self.given.saturating_add(count as u64);
        count
    }
}

impl Copies for HeldFiles {
    fn copy(&self, alloc: Global) -> Result<Self, Memory> {
        Ok(HeldFiles {
            files: self.files.copy(alloc)?,
            started: self.started,
            file: self.file,
            at: self.at,
            given: self.given,
        })
    }
}

/// The place of the first file of this name.
pub fn find_file(files: &[File], name: &str) -> Option<usize>
    ensures within { IfSome result (λ i. i < length files.now) }
    ensures named { IfSome result (λ i. name_at files.now i ≡ name.now) }
    ensures bytes { IfSome result (λ i. bytes_at files.now i ≡ content_of files.now name.now) }
    ensures held { OnSome result (holds_file files.now name.now ≡ true) }
    ensures none { IfNone result (holds_file files.now name.now ≡ false) }
{
    for (i, file) in files.iter().enumerate() {
        if file.name.as_bytes() == name.as_bytes() {
            return Some(i);
        }
    }
    None
}

/// The bytes of the file at this place; none where there is no file.
fn bytes_of(files: &[File], i: usize) -> &[u8]
    ensures { result.now ≡ bytes_at files.now i }
{
    match files.get(i) {
        Some(file) => file.bytes.as_slice(),
        None => &[],
    }
}

/// The bytes from a place on.
fn from_place(bytes: &[u8], at: usize) -> &[u8]
    ensures { result.now ≡ drop at bytes.now }
{
    if at < bytes.len() { &bytes[at..] } else { &[] }
}
