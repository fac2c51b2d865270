// Files in memory: the first of a name, and all of two lists.
ghost use Rattle.std.specs.Prelude.{◌≡◌, ◌++◌, ◌<◌, ◌≤◌, IfNone, IfOk, IfSome, OnSome, false, length, true};
ghost use Rattle.lrp_io.specs.Files.{bytes_at, content_of, holds_file};
ghost use Rattle.lrp_model.specs.Limits.{most_bytes};

use crate::kept_file::KeptFile;
use lrp_io::File;
use lrp_model::{Copies, List, Memory};
use std::alloc::Global;

/// The most bytes of a file.
const MOST_BYTES: usize = 16_777_216;

/// Files, and copies of others after them.
pub fn all_files(
    alloc: Global,
    files: List<File>,
    others: &[KeptFile],
) -> Result<List<File>, Memory>
    ensures { IfOk result (λ all. all ≡ files ++ others.now) }
{
    let mut all = files;
    for file in others {
        all.push(file.copy(alloc)?)?;
    }
    Ok(all)
}

/// The bytes of the first file of this name, where there is one that isn't too long.
pub fn short_bytes(alloc: Global, files: &[File], name: &str) -> Option<List<u8>>
    ensures bytes { IfSome result (λ bytes. bytes ≡ content_of files.now name.now) }
    ensures short { IfSome result (λ bytes. length bytes ≤ most_bytes) }
    ensures held { OnSome result (holds_file files.now name.now ≡ true) }
{
    match place_of(files, name) {
        Some(i) => {
            let bytes = files[i].bytes.as_slice();
            if bytes.len() > MOST_BYTES {
                None
            } else {
                copy_of(alloc, bytes)
            }
        }
        None => None,
    }
}

/// The place of the first file of this name.
pub fn place_of(files: &[File], name: &str) -> Option<usize>
    ensures within { IfSome result (λ i. i < length files.now) }
    ensures bytes { IfSome result (λ i. bytes_at files.now i ≡ content_of files.now name.now) }
    ensures held { OnSome result (holds_file files.now name.now ≡ true) }
    ensures none { IfNone result (holds_file files.now name.now ≡ false) }
{
    for (i, file) in files.iter().enumerate() {
        if file.name.as_bytes() == name.as_bytes() {
            return Some(i);
        }
    }
    None
}

/// The place of the first kept file of this name.
pub fn kept_place(files: &[KeptFile], name: &str) -> Option<usize>
    ensures within { IfSome result (λ i. i < length files.now) }
    ensures bytes { IfSome result (λ i. bytes_at files.now i ≡ content_of files.now name.now) }
{
    for (i, file) in files.iter().enumerate() {
        if file.has_name(name) {
            return Some(i);
        }
    }
    None
}

/// These bytes, unless memory is refused.
fn copy_of(alloc: Global, bytes: &[u8]) -> Option<List<u8>>
    ensures { IfSome result (λ copy. copy ≡ bytes.now) }
{
    match bytes.to_vec(alloc) {
        Ok(copy) => Some(List::from_vec(copy)),
        Err(_) => None,
    }
}
