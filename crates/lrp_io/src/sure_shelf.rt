// A shelf in memory that never fails.
ghost use Rattle.std.specs.Prelude.{◌≡◌, [], false, Some};
ghost use Rattle.lrp_io.specs.Files.{bytes_at, content_of};
ghost use Rattle.lrp_io.specs.Held.{left_of};

use crate::held::{HeldFiles, find_file};
use crate::{Failed, File, History, Note, Shelf};
use lrp_model::{Copies, List, Memory};
use std::alloc::Global;

/// A shelf in memory that never fails. A file that it doesn't hold is empty.
///
/// It keeps no names, and its count of faults is 0 for every name.
#[derive(Drop)]
pub struct SureShelf {
    held: HeldFiles,
    history: History,
}

impl SureShelf {
    pub fn new(files: List<File>) -> SureShelf
        ensures files { result.held.files ≡ files }
        ensures stopped { result.held.started ≡ false }
        ensures unasked { result.history.starts ≡ [] }
    {
        SureShelf {
            held: HeldFiles::new(files),
            history: History::new(),
        }
    }
}

impl Copies for SureShelf {
    fn copy(&self, alloc: Global) -> Result<Self, Memory> {
        Ok(SureShelf {
            held: self.held.copy(alloc)?,
            history: self.history.then(&Note::Same),
        })
    }
}

impl Shelf for SureShelf {
    ghost use Rattle.std.proofs.Common.{rules};

    ghost files = { λ s. Some s.held.files };

    ghost started = { λ s. s.held.started };

    ghost may_be = { λ s name. s.held.started };

    ghost given = { λ s. s.held.given };

    ghost left = { λ s. Some (left_of s.held) };

    ghost faults = { λ s name. 0 };

    ghost starts = { λ s. s.history.starts };

    ghost names_started = { Prim.search rules };

    ghost tells_left = { Prim.search rules };

    fn start(&mut self, name: &str) -> Result<(), Failed> {
        let file = place_of(self.held.files.as_slice(), name);
        self.held.open(file);
        self.history = self.history.then(&Note::Started(name));
        Ok(())
    }

    fn read(&mut self, buf: &mut [u8]) -> Result<usize, Failed> {
        let most = buf.len();
        let count = self.held.take(buf, most);
        self.history = self.history.then(&Note::Given(count));
        Ok(count)
    }
}

/// The place of the first file of this name, or the one after the last file.
#[tactic(auto, using(crate::proofs::FilesLemmas::content_missing, crate::proofs::FilesLemmas::bytes_after))]
fn place_of(files: &[File], name: &str) -> usize
    ensures { bytes_at files.now result ≡ content_of files.now name.now }
{
    match find_file(files, name) {
        Some(place) => place,
        None => files.len(),
    }
}
