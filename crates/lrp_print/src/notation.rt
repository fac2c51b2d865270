// Items of one kind, one after the other.
ghost use Rattle.std.specs.Prelude.{◌++◌, List, ℕ};
ghost use Rattle.std.specs.List.{flat_map, AllByRecursion};
ghost use Rattle.lrp_io.specs.Causes.{HasCause};
ghost use Rattle.lrp_io.specs.Pieces.{IsWritten};
ghost use Rattle.lrp_model.specs.Printed.{joined_by};
ghost use Rattle.lrp_print.specs.Conditions.{after_where};

use crate::pieces::write_bytes;
use lrp_io::{Failed, Sink};

/// How items of one kind are written, so that one loop writes the lists of every kind.
pub trait Notation {
    type Item;

    /// Which items have a spelling.
    ghost spells: { Self → Self.Item → Type 0 };

    /// The bytes of an item.
    ghost bytes: { Self → Self.Item → List ℕ };

    /// Writes an item. After a failure a front of its bytes was written.
    fn write<S: Sink>(&self, out: &mut S, item: &Self::Item) -> Result<(), Failed>
        requires { spells self.now item.now }
        ensures text { IsWritten (S.written out.old) (S.written out.new)
            (bytes self.now item.now) result }
        ensures cause { HasCause (S.faults out.old) (S.faults out.new) result };
}

/// Items, one after the other. After a failure a front of them was written.
pub fn write_each<S: Sink, N: Notation>(
    out: &mut S,
    notation: &N,
    items: &[N::Item],
) -> Result<(), Failed>
    requires { AllByRecursion (N.spells notation.now) items.now }
    ensures text { IsWritten (S.written out.old) (S.written out.new)
        (flat_map (N.bytes notation.now) items.now) result }
    ensures cause { HasCause (S.faults out.old) (S.faults out.new) result }
{
    for item in items {
        notation.write(out, item)?;
    }
    Ok(())
}

/// Items, with the separator between. After a failure a front of them was written.
pub fn write_joined<S: Sink, N: Notation>(
    out: &mut S,
    notation: &N,
    separator: &[u8],
    items: &[N::Item],
) -> Result<(), Failed>
    requires { AllByRecursion (N.spells notation.now) items.now }
    ensures text { IsWritten (S.written out.old) (S.written out.new)
        (joined_by separator.now (N.bytes notation.now) items.now) result }
    ensures cause { HasCause (S.faults out.old) (S.faults out.new) result }
{
    match items {
        [] => Ok(()),
        [first, rest @ ..] => {
            notation.write(out, first)?;
            let further = After {
                separator,
                notation,
            };
            write_each(out, &further, rest)
        }
    }
}

/// ` where ` and the items with commas between, if there are any. After a failure a front of them was written.
pub(crate) fn write_after_where<S: Sink, N: Notation>(
    out: &mut S,
    notation: &N,
    items: &[N::Item],
) -> Result<(), Failed>
    requires { AllByRecursion (N.spells notation.now) items.now }
    ensures text { IsWritten (S.written out.old) (S.written out.new)
        (after_where (N.bytes notation.now) items.now) result }
    ensures cause { HasCause (S.faults out.old) (S.faults out.new) result }
{
    match items {
        [] => Ok(()),
        [_, ..] => {
            write_bytes(out, b" where ")?;
            write_joined(out, notation, b", ", items)
        }
    }
}

// Each item after a separator.
#[derive(Clone, Copy)]
struct After<'a, N> {
    separator: &'a [u8],
    notation: &'a N,
}

impl<N: Notation> Notation for After<'_, N> {
    type Item = N::Item;

    ghost spells = { λ s item. N.spells s.notation.now item };

    ghost bytes = { λ s item. s.separator.now ++ N.bytes s.notation.now item };

    fn write<S: Sink>(&self, out: &mut S, item: &N::Item) -> Result<(), Failed> {
        write_bytes(out, self.separator)?;
        self.notation.write(out, item)
    }
}
