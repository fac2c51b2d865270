// Files in memory, of which those that are there are never failed at.
ghost use Rattle.std.specs.Prelude.{◌≡◌, [], List as ListOf};
ghost use Rattle.lrp_io.specs.declared.shelf.File.{File as FileOf};

use lrp_io::{Failed, File, MemShelf, Shelf};
use lrp_model::List;
use std::alloc::Global;
use std::marker::{Brand, PhantomData};

/// Which files a shelf has, for proofs alone: a type that names them stays the same in every call.
pub trait Stock {
    ghost files: { ListOf FileOf };
}

impl Stock for Brand {
    ghost use Rattle.std.specs.Prelude.{[]};

    ghost files = { [] };
}

/// A shelf in memory, which fails at names that it doesn't hold, and at these alone.
#[derive(Drop)]
pub struct CallShelf<K: Stock> {
    held: MemShelf,
    stock: PhantomData<K>,
    ghost sound: { held.failing ≡ [] },
    ghost same: { held.held.files ≡ K.files },
}

impl<K: Stock> CallShelf<K> {
    /// A shelf of these files.
    pub fn new(alloc: Global, files: List<File>) -> CallShelf<K>
        requires { files ≡ K.files }
    {
        CallShelf {
            held: MemShelf::new(files, List::new(alloc)),
            stock: PhantomData,
        }
    }
}

impl<K: Stock> Shelf for CallShelf<K> {
    ghost use Rattle.std.specs.Prelude.{if◌then◌else◌, nat_eq, ◌&&◌, Some};
    ghost use Rattle.std.proofs.Common.{rules};
    ghost use lib.Pointwise.{pointwise};
    ghost use Rattle.lrp_io.specs.Files.{holds_file};
    ghost use Rattle.lrp_io.specs.Held.{held_name, left_of};

    ghost files = { λ s. Some s.held.held.files };

    ghost started = { λ s. s.held.held.started };

    ghost may_be = { λ s name. s.held.held.started && pointwise nat_eq (held_name s.held.held) name };

    ghost given = { λ s. s.held.held.given };

    ghost left = { λ s. Some (left_of s.held.held) };

    // A file that is held is never failed at.
    ghost faults = { λ s name. if holds_file K.files name then 0 else s.held.faults };

    ghost starts = { λ s. s.held.history.starts };

    ghost names_started = { Prim.search rules };

    ghost tells_left = { Prim.search rules };

    fn start(&mut self, name: &str) -> Result<(), Failed> {
        self.held.start(name)
    }

    fn read(&mut self, buf: &mut [u8]) -> Result<usize, Failed> {
        self.held.read(buf)
    }
}
