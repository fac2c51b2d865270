// Where a page goes on, and why a text does not say it.
use lrp_model::{Copies, Memory, Tuple};
use std::alloc::Global;
use thiserror::Error;

/// What a token spells: the tuple after which a page goes on, and the digest of the files that it was written for.
///
/// A token of version 1 has no digest.
#[derive(Drop)]
pub struct Resume {
    pub tuple: Tuple,
    pub digest: Option<[u8; 32]>,
}

impl Copies for Resume {
    fn copy(&self, alloc: Global) -> Result<Self, Memory> {
        Ok(Resume {
            tuple: self.tuple.copy(alloc)?,
            digest: self.digest,
        })
    }
}

/// Why a text is not read. [`TokenFault::Memory`] says nothing of the text.
#[derive(Clone, Copy, Debug, PartialEq, Eq, Error)]
pub enum TokenFault {
    /// The text is no token.
    #[error("token form")]
    Form,
    /// It is a token with other counts of times or texts.
    #[error("token shape")]
    Shape,
    /// There was no memory.
    #[error("memory")]
    Memory,
}

impl From<Memory> for TokenFault {
    ghost use Rattle.std.specs.Prelude.{◌≡◌};
    ghost use Rattle.lrp_token.specs.declared.resume.TokenFault.TheVariants.{Memory as memory};

    ghost from_gives = { λ _ fault. fault ≡ memory };

    fn from(_: Memory) -> TokenFault {
        TokenFault::Memory
    }
}
