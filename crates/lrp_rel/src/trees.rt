// What the text of a database says, read from its bytes, or the fault of the bytes or of the grammar.
ghost use Rattle.std.specs.Prelude.{◌≡◌, ◌≢◌, ◌≤◌, length, IfOk, IfErr};
ghost use Rattle.lrp_rel.specs.Reading.{database_refusal, IsGatheredFrom, IsUnreadDatabase};
ghost use Rattle.lrp_model.specs.Limits.{most_bytes};

use crate::gathering::Gathered;
use crate::reading::read_relations_to_end;
use lrp_model::{DbFault, DbKind, Fault, Memory, Place};
use lrp_text::{TokenCursor, place_after};
use std::alloc::Global;
use std::str::from_utf8;
use thiserror::Error;

/// Why no database is read: the one fault of its text, or want of memory.
#[derive(Clone, Copy, Debug, PartialEq, Eq, Error)]
pub enum ReadFault {
    #[error("{fault}")]
    Fault { fault: DbFault },
    #[error("memory")]
    Memory,
}

impl From<Memory> for ReadFault {
    ghost use Rattle.std.specs.Prelude.{◌≡◌};
    ghost use Rattle.lrp_rel.specs.declared.trees.ReadFault.TheVariants.{Memory as memory};

    ghost from_gives = { λ _ e. e ≡ memory };

    fn from(_: Memory) -> Self {
        ReadFault::Memory
    }
}

/// The fault of a text, from what was met at a place.
pub fn refusal(kind: Fault, place: Place) -> ReadFault
    requires { kind ≢ Fault.Deep }
    ensures { result ≡ database_refusal kind place }
{
    let kind = match kind {
        Fault::Syntax => DbKind::Syntax,
        Fault::Number => DbKind::Number,
        Fault::TextTooLong => DbKind::TextTooLong,
        Fault::Period => DbKind::Period,
        Fault::Deep => unreachable!(),
        Fault::Memory => return ReadFault::Memory,
    };
    ReadFault::Fault {
        fault: DbFault { kind, place },
    }
}

// What a text says.
fn read_text(alloc: Global, text: &str) -> Result<Gathered, ReadFault>
    requires { length text.now ≤ most_bytes }
    ensures gathered { IfOk result (IsGatheredFrom text.now) }
    ensures refused { IfErr result (IsUnreadDatabase text.now) }
{
    let mut tokens = TokenCursor::new(text);
    match read_relations_to_end(alloc, &mut tokens) {
        Ok(gathered) => Ok(gathered),
        Err(fault) => Err(refusal(fault, tokens.peek().place)),
    }
}

// What bytes say, where they are UTF-8 and a text of the grammar.
pub fn read_bytes(alloc: Global, bytes: &[u8]) -> Result<Gathered, ReadFault>
    requires { length bytes.now ≤ most_bytes }
    ensures gathered { IfOk result (IsGatheredFrom bytes.now) }
    ensures refused { IfErr result (IsUnreadDatabase bytes.now) }
{
    match from_utf8(bytes) {
        Ok(text) => read_text(alloc, text),
        Err(error) => {
            let place = place_after(&bytes[..error.valid_up_to()]);
            Err(ReadFault::Fault {
                fault: DbFault {
                    kind: DbKind::Utf8,
                    place,
                },
            })
        }
    }
}
