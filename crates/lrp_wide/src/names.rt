// Names that no text spells: of the variables that expansion brings.
ghost use Rattle.std.specs.Prelude.{◌≡◌, ◌++◌, [], IfOk};
ghost use Rattle.lrp_wide.specs.Inlining.{inner_name, star_variable};
ghost use Rattle.lrp_wide.specs.Meaning.{is_star as is_star_of};

use itoa::Buffer;
use lrp_model::{Memory, Name, RawTerm, RawTermKind};
use lrp_query::STAR;
use std::alloc::Global;

/// Room for the text of a name.
#[derive(Drop)]
pub struct NameText {
    bytes: Vec<u8>,
}

impl NameText {
    /// None yet.
    pub fn new(alloc: Global) -> Self
        ensures { result.bytes.items ≡ [] }
    {
        NameText {
            bytes: Vec::new(alloc),
        }
    }

    /// `~~k`, the variable of the `*` that has this number.
    pub fn star(&mut self, alloc: Global, number: u64) -> Result<Name, Memory>
        ensures { IfOk result (λ made. made ≡ star_variable number) }
    {
        self.bytes.clear();
        self.numbered(alloc, number)
    }

    /// `v~~k`, a variable of a definition in the use that has this number.
    pub fn inner(&mut self, alloc: Global, name: &Name, number: u64) -> Result<Name, Memory>
        ensures { IfOk result (λ made. made ≡ inner_name number name.now) }
    {
        self.bytes.clear();
        self.bytes.extend_from_slice(name.as_bytes())?;
        self.numbered(alloc, number)
    }

    // The text with a number after it.
    fn numbered(&mut self, alloc: Global, number: u64) -> Result<Name, Memory>
        ensures { IfOk result (λ made. made
            ≡ self.old.bytes.items ++ star_variable number) }
    {
        self.bytes.extend_from_slice(b"~~")?;
        self.bytes
            .extend_from_slice(Buffer::new().format(number).as_bytes())?;
        Name::of_bytes(alloc, self.bytes.as_slice())
    }
}

/// Whether a term of an atom is a `*`.
pub fn is_star(term: &RawTerm) -> bool
    ensures { result ≡ is_star_of term.now }
{
    match &term.kind {
        RawTermKind::Var { name } => name.as_bytes() == STAR.as_bytes(),
        RawTermKind::Int { .. } | RawTermKind::Text { .. } | RawTermKind::Shifted { .. } => false,
    }
}
