// What a caller holds of a session: a pointer that tells nothing of what it points to but the files.
ghost use Rattle.std.specs.Prelude.{◌≡◌, IfSome, List as ListOf, None, Option, Some, true};
ghost use Rattle.lrp_c.specs.Handles.{is_some, owned_at};
ghost use Rattle.lrp_c.specs.Sessions.{IsSessionOf};
ghost use Rattle.lrp_c.specs.contracts.session.Session.{the_row};
ghost use Rattle.lrp_io.specs.declared.shelf.File.{File as FileOf};

use crate::loose::Loose;
use crate::session::Session;
use std::alloc::{Allocator, Global};
use std::marker::Model;
use std::ptr::null_mut;

/// A session in memory of its own, or none.
#[repr(C)]
#[derive(Drop)]
pub struct Held {
    at: *mut u8,
    alloc: Global,
    pub ghost files: { Option (ListOf FileOf) },
}

impl Model for Held {
    ghost also_owns = { λ h. owned_at (⟦<Global as Allocator>⟧.dealloc_token h.alloc) the_row IsSessionOf h.at
        h.files };
}

impl Held {
    /// No session.
    pub fn none(alloc: Global) -> Held
        ensures { result.files ≡ None }
    {
        Held {
            at: null_mut(),
            alloc,
        }
    }

    /// The session that a pointer owns.
    pub fn of(loose: Loose<Session, Global>) -> Held
        ensures { result.files ≡ Some loose.value.files }
    {
        let Loose { at, alloc } = loose;
        Held {
            at: at as *mut u8,
            alloc,
        }
    }

    /// The pointer that owns the session.
    pub fn into_loose(self) -> Loose<Session, Global>
        requires { is_some self.files ≡ true }
        ensures { IfSome self.files (λ files. IsSessionOf files result.value) }
    {
        let Held { at, alloc } = self;
        Loose {
            at: at as *mut Session,
            alloc,
        }
    }
}
