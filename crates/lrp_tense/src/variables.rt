// The variables around a formula, which are told apart by how their names look.
ghost use Rattle.std.specs.Prelude.{◌≡◌, bytes_eq};
ghost use Rattle.lrp_model.specs.Texts.{Identifier};
ghost use Rattle.lrp_tense.specs.Expanding.{renamed_to};
ghost use Rattle.lrp_tense.specs.Named.{look_at};

use lrp_model::Name;
use std::marker::Model;

/// How a name looks: its length and its last byte. Most names are told apart by it.
#[derive(Clone, Copy)]
pub struct Look {
    size: usize,
    last: u8,
}

/// How a name looks.
pub fn look_of(name: &Name) -> Look
    ensures { result ≡ look_at name.now }
{
    let bytes = name.as_bytes();
    let size = bytes.len();
    let last = if size == 0 { 0 } else { bytes[size - 1] };
    Look { size, last }
}

/// A variable as it is written, and its name in the expanded query.
#[derive(Drop)]
pub struct ScopedVariable<'a> {
    written: &'a Name,
    look: Look,
    present: Name,
}

impl<'a> Model for ScopedVariable<'a> {
    ghost use Rattle.std.specs.Prelude.{◌≡◌};
    ghost use Rattle.lrp_tense.specs.Expanding.{Renaming, renamed_to};
    ghost use Rattle.lrp_tense.specs.Named.{look_at};

    ghost Value = { Renaming };

    ghost view = { λ a. renamed_to a.written.now a.present };

    ghost invariant = { λ a. a.look ≡ look_at a.written.now };
}

impl<'a> ScopedVariable<'a> {
    /// A written name and what stands for it.
    pub fn new(written: &'a Name, present: Name) -> Self
        ensures { result ≡ renamed_to written.now present }
    {
        ScopedVariable {
            written,
            look: look_of(written),
            present,
        }
    }

    /// Whether it is written as this name, which looks so.
    pub fn is_written(&self, look: Look, name: &Name) -> bool
        requires { look ≡ look_at name.now }
        ensures { result ≡ bytes_eq self.now.written name.now }
    {
        self.look.size == look.size && self.look.last == look.last && *self.written == *name
    }

    /// Its name in the expanded query.
    pub fn present(&self) -> &Name
        ensures { result.now ≡ self.now.present }
    {
        &self.present
    }

    /// That name alone.
    pub fn into_present(self) -> Name
        ensures { result ≡ self.entry.present }
    {
        let ScopedVariable { present, .. } = self;
        present
    }
}
