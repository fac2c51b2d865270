// Byte strings in one, each after its length.
ghost use Rattle.std.specs.Prelude.{◌≡◌, ◌++◌, ◌<◌, ◌^◌, List as ListOf, ℕ, length, map, IfOk, IfSome, IsNone, IsErrOf, string_bytes};
ghost use Rattle.std.specs.Int.{to_le_bytes, w64};
ghost use Rattle.std.specs.Str.{IsUtf8};
ghost use Rattle.lrp_c.specs.Packed.{framed, packed_files, packed_words, AreFiles, AreWords};
ghost use Rattle.lrp_io.specs.declared.shelf.File.{File as FileOf};

use lrp_io::File;
use lrp_model::{List, Memory, Name};
use std::alloc::{AllocError, AllocFailed, Global};

/// Why nothing was taken out of bytes.
#[derive(Clone, Copy, Debug, PartialEq, Eq)]
pub enum Unread {
    /// Memory was refused.
    Memory,
    /// The bytes aren't packed.
    Unpacked,
}

impl From<Memory> for Unread {
    ghost use Rattle.std.specs.Prelude.{◌≡◌};
    ghost use Rattle.lrp_c.specs.declared.packed.Unread.TheVariants.{Memory as memory};

    ghost from_gives = { λ _ e. e ≡ memory };

    fn from(_: Memory) -> Self {
        Unread::Memory
    }
}

impl From<AllocError> for Unread {
    ghost use Rattle.std.specs.Prelude.{◌≡◌};
    ghost use Rattle.lrp_c.specs.declared.packed.Unread.TheVariants.{Memory as memory};

    ghost from_gives = { λ _ e. e ≡ memory };

    fn from(_: AllocError) -> Self {
        Unread::Memory
    }
}

impl<T: Drop> From<AllocFailed<T>> for Unread {
    ghost use Rattle.std.specs.Prelude.{◌≡◌};
    ghost use Rattle.lrp_c.specs.declared.packed.Unread.TheVariants.{Memory as memory};

    ghost from_gives = { λ _ e. e ≡ memory };

    fn from(_: AllocFailed<T>) -> Self {
        Unread::Memory
    }
}

/// A byte string, and what comes after it.
#[derive(Clone, Copy)]
struct Piece<'a> {
    bytes: &'a [u8],
    rest: &'a [u8],
}

/// A text, and what comes after it.
#[derive(Clone, Copy)]
struct TextPiece<'a> {
    text: &'a str,
    rest: &'a [u8],
}

/// A file, and what comes after it.
#[derive(Clone, Copy)]
struct FilePiece<'a> {
    name: &'a str,
    bytes: &'a [u8],
    rest: &'a [u8],
}

/// The words that are packed in these bytes.
pub fn words_in(alloc: Global, bytes: &[u8]) -> Result<Vec<String>, Unread>
    ensures packed { IfOk result (λ words. bytes.now
        ≡ packed_words (map string_bytes words.items)) }
    ensures unpacked { (said : ListOf (ListOf ℕ)) → IsErrOf result Unread.Unpacked
        → AreWords said → bytes.now ≡ packed_words said → ⊥ }
{
    let mut words = Vec::new(alloc);
    let mut rest = bytes;
    while !rest.is_empty() {
        match text_in(rest) {
            Some(piece) => {
                let word = String::from_str(alloc, piece.text)?;
                words.push(word)?;
                rest = piece.rest;
            }
            None => return Err(Unread::Unpacked),
        }
    }
    Ok(words)
}

/// The files that are packed in these bytes: of each its name, and then its bytes.
pub fn files_in(alloc: Global, bytes: &[u8]) -> Result<List<File>, Unread>
    ensures packed { IfOk result (λ files. bytes.now ≡ packed_files files) }
    ensures unpacked { (held : ListOf FileOf) → IsErrOf result Unread.Unpacked
        → AreFiles held → bytes.now ≡ packed_files held → ⊥ }
{
    let mut files = List::new(alloc);
    let mut rest = bytes;
    while !rest.is_empty() {
        match file_in(rest) {
            Some(piece) => {
                let file = file_of(alloc, piece.name, piece.bytes)?;
                files.push(file)?;
                rest = piece.rest;
            }
            None => return Err(Unread::Unpacked),
        }
    }
    Ok(files)
}

/// A file of this name and these bytes.
fn file_of(alloc: Global, name: &str, bytes: &[u8]) -> Result<File, Memory>
    ensures name { IfOk result (λ file. file.name ≡ name.now) }
    ensures bytes { IfOk result (λ file. file.bytes ≡ bytes.now) }
{
    Ok(File {
        name: Name::new(alloc, name)?,
        bytes: List::from_vec(bytes.to_vec(alloc)?),
    })
}

/// The file at the front of these bytes.
fn file_in(bytes: &[u8]) -> Option<FilePiece<'_>>
    ensures some { IfSome result (λ piece. bytes.now
        ≡ framed piece.name.now ++ (framed piece.bytes.now ++ piece.rest.now)) }
    ensures none { (name content rest : ListOf ℕ) → IsNone result → IsUtf8 name
        → bytes.now ≡ framed name ++ (framed content ++ rest) → ⊥ }
    ensures short { IfSome result (λ _. length bytes.now < 2 ^ 64) }
{
    let name = text_in(bytes)?;
    let content = piece_in(name.rest)?;
    Some(FilePiece {
        name: name.text,
        bytes: content.bytes,
        rest: content.rest,
    })
}

/// The text at the front of these bytes.
fn text_in(bytes: &[u8]) -> Option<TextPiece<'_>>
    ensures some { IfSome result (λ piece. bytes.now ≡ framed piece.text.now ++ piece.rest.now) }
    ensures none { (text rest : ListOf ℕ) → IsNone result → IsUtf8 text
        → bytes.now ≡ framed text ++ rest → ⊥ }
    ensures short { IfSome result (λ _. length bytes.now < 2 ^ 64) }
{
    let piece = piece_in(bytes)?;
    match str::from_utf8(piece.bytes) {
        Ok(text) => Some(TextPiece {
            text,
            rest: piece.rest,
        }),
        Err(_) => None,
    }
}

/// The number that these bytes say, the lowest first.
fn number_of(bytes: [u8; 8]) -> u64
    ensures { to_le_bytes w64 result ≡ bytes }
{
    u64::from_le_bytes(bytes)
}

/// The byte string at the front of these bytes.
fn piece_in(bytes: &[u8]) -> Option<Piece<'_>>
    ensures some { IfSome result (λ piece. bytes.now ≡ framed piece.bytes.now ++ piece.rest.now) }
    ensures none { (piece rest : ListOf ℕ) → IsNone result
        → bytes.now ≡ framed piece ++ rest → ⊥ }
    ensures short { IfSome result (λ _. length bytes.now < 2 ^ 64) }
{
    let (front, rest) = bytes.split_first_chunk::<8>()?;
    let length = number_of(*front);
    if length > rest.len() as u64 {
        return None;
    }
    let (bytes, rest) = rest.split_at(length as usize);
    Some(Piece { bytes, rest })
}
