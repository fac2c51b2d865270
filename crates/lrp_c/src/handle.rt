// A caller's database: a session that is open, or none.
ghost use Rattle.std.specs.Prelude.{◌≡◌, IfOk, IfSome, IsErrOf, IsNone, List as ListOf, None, Some};
ghost use Rattle.lrp_c.specs.Handles.{is_some};
ghost use Rattle.lrp_c.specs.Packed.{packed_files, AreFiles};
ghost use Rattle.lrp_io.specs.declared.shelf.File.{File as FileOf};

use crate::held::Held;
use crate::loose::Loose;
use crate::packed::{Unread, files_in};
use crate::session::Session;
use std::alloc::Global;
use std::mem;

/// What a caller has of a database: whether it is open, and its session.
#[repr(C)]
#[derive(Drop)]
pub struct OpenDatabase {
    is_open: bool,
    pub held: Held,
    ghost agrees: { is_open ≡ is_some held.files },
}

/// A session of the packed files.
pub fn open(alloc: Global, files: &[u8]) -> Result<Box<Session>, Unread>
    ensures packed { IfOk result (λ boxed. files.now ≡ packed_files boxed.value.files) }
    ensures unpacked { (held : ListOf FileOf) → IsErrOf result Unread.Unpacked
        → AreFiles held → files.now ≡ packed_files held → ⊥ }
{
    let files = files_in(alloc, files)?;
    let session = Session::new(alloc, files)?;
    let boxed = Box::new(alloc, session)?;
    Ok(boxed)
}

/// The session of a database, which is closed by that.
pub fn take(alloc: Global, database: &mut OpenDatabase) -> Option<Box<Session>>
    ensures closed { database.new.held.files ≡ None }
    ensures files { IfSome result (λ boxed. database.old.held.files ≡ Some boxed.value.files) }
    ensures none { IsNone result → database.old.held.files ≡ None }
{
    let closed = OpenDatabase {
        is_open: false,
        held: Held::none(alloc),
    };
    let OpenDatabase { is_open, held } = mem::replace(database, closed);
    if is_open {
        Some(held.into_loose().into_box())
    } else {
        drop(held);
        None
    }
}

/// Opens a database that is closed with this session.
pub fn give_back(database: &mut OpenDatabase, boxed: Box<Session>)
    ensures { database.new.held.files ≡ Some boxed.value.files }
{
    *database = OpenDatabase {
        is_open: true,
        held: Held::of(Loose::of(boxed)),
    };
}
