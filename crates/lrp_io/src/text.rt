// A text that is written to any sink.
ghost use Rattle.std.specs.Prelude.{◌≡◌, ◌≤◌, List, ℕ, Option, true, false};
ghost use Rattle.lrp_io.specs.Bytes.{appended, AppendsFront};
ghost use Rattle.lrp_io.specs.Buffers.{between, Grew};
ghost use Rattle.lrp_io.specs.Causes.{HasCause, Rose};
ghost use Rattle.lrp_io.specs.Pieces.{IsWritten};

use crate::buffer::Buffer;
use crate::{Failed, Sink};
use std::marker::{Brand, PhantomData};

/// A text that can be written to any sink.
pub trait Text {
    /// Its bytes.
    ghost text: { Self → List ℕ };

    /// Writes all its bytes, or a front of them where the sink fails.
    fn write_to<S: Sink>(&self, out: &mut S) -> Result<(), Failed>
        ensures text { IsWritten (S.written out.old) (S.written out.new) (text self.now) result }
        ensures cause { HasCause (S.faults out.old) (S.faults out.new) result };
}

/// Writes all bytes of the text, or a front of them where the sink fails.
///
/// The sink is handed pieces of up to 4,096 bytes, however small those are that the text is
/// written in. No memory is taken.
pub fn write_buffered<S: Sink, T: Text>(out: &mut S, text: &T) -> Result<(), Failed>
    ensures text { IsWritten (S.written out.old) (S.written out.new) (T.text text.now) result }
    ensures cause { HasCause (S.faults out.old) (S.faults out.new) result }
{
    let buffer = fill::<Brand, S, T>(Buffer::new(out), text);
    if buffer.failed {
        return Err(Failed);
    }
    buffer.finish()
}

/// Which sink was lent to a buffer, for proofs alone.
///
/// A type that names it stays the same in every call, so a writer of which no clause speaks of the
/// sink after still leaves that in its place.
trait Lent {
    /// The ghost name of the reference to it.
    ghost name: { ℕ };

    /// The bytes that it told when it was lent.
    ghost before: { Option (List ℕ) };
}

impl Lent for Brand {
    ghost use Rattle.std.specs.Prelude.{None};

    ghost name = { 0 };

    ghost before = { None };
}

/// A buffer as a sink.
#[derive(Drop)]
struct Buffered<'a, L: Lent, S: Sink> {
    buffer: Buffer<'a, S>,
    lent: PhantomData<L>,
    ghost same_reference: { buffer.out.ghost_name ≡ L.name },
    ghost grew: { Grew L.before (S.written buffer.out.now) },
}

impl<L: Lent, S: Sink> Sink for Buffered<'_, L, S> {
    ghost use Rattle.lrp_io.specs.Bytes.{appended};
    ghost use Rattle.lrp_io.specs.Buffers.{between};

    ghost written = { λ s. appended (S.written s.buffer.out.now) (between s.buffer.bytes s.buffer.first s.buffer.last) };

    ghost faults = { λ s. S.faults s.buffer.out.now };

    fn write(&mut self, piece: &[u8]) -> Result<usize, Failed> {
        self.buffer.make_room()?;
        Ok(self.buffer.take_in(piece))
    }
}

/// Writes the text into the buffer, which keeps whether that failed.
fn fill<'a, L: Lent, S: Sink, T: Text>(buffer: Buffer<'a, S>, text: &T) -> Buffer<'a, S>
    requires name { buffer.out.ghost_name ≡ L.name }
    requires before { S.written buffer.out.now ≡ L.before }
    ensures whole { result.failed ≡ false → appended (S.written result.out.now)
        (between result.bytes result.first result.last)
        ≡ appended (appended (S.written buffer.entry.out.now)
        (between buffer.entry.bytes buffer.entry.first buffer.entry.last)) (T.text text.now) }
    ensures front { result.failed ≡ true → AppendsFront
        (appended (S.written buffer.entry.out.now)
        (between buffer.entry.bytes buffer.entry.first buffer.entry.last))
        (appended (S.written result.out.now) (between result.bytes result.first result.last))
        (T.text text.now) }
    ensures grew { Grew (S.written buffer.entry.out.now) (S.written result.out.now) }
    ensures same_reference { result.out.ghost_name ≡ buffer.entry.out.ghost_name }
    ensures rose { result.failed ≡ true → Rose (S.faults buffer.entry.out.now)
        (S.faults result.out.now) }
    ensures later { S.faults buffer.entry.out.now ≤ S.faults result.out.now }
{
    let mut buffered: Buffered<'a, L, S> = Buffered {
        buffer,
        lent: PhantomData,
    };
    let failed = text.write_to(&mut buffered).is_err();
    let Buffered {
        mut buffer,
        lent: _,
    } = buffered;
    buffer.failed = failed;
    buffer
}
