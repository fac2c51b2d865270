// Small pieces, gathered in front of a sink.
ghost use Rattle.std.specs.Prelude.{◌≡◌, ◌≤◌, ◌<◌, ◌+◌, ◌-◌, ◌++◌, min, List, [], ℕ, length, take, IfOk, OnErr, OnOk, Option};
ghost use Rattle.lrp_io.specs.Bytes.{appended, AppendsFront};
ghost use Rattle.lrp_io.specs.Causes.{HasCause};
ghost use Rattle.lrp_io.specs.Buffers.{between, Grew, HandsOn};
ghost use Rattle.lrp_io.specs.Pieces.{IsWritten};

use crate::{Failed, Sink};

/// The most bytes that are held.
const ROOM: usize = 4096;

/// A sink, and bytes that it was not handed yet: those from place `first` on, as far as `last`.
///
/// It keeps whether a text that was written into it failed. What is held when it is dropped is
/// lost.
#[derive(Drop)]
pub(crate) struct Buffer<'a, S: Sink> {
    out: &'a mut S,
    bytes: [u8; ROOM],
    first: usize,
    last: usize,
    pub(crate) failed: bool,
    ghost ordered: { first ≤ last },
    ghost within: { last ≤ 4096 },
}

impl<'a, S: Sink> Buffer<'a, S> {
    /// A buffer in which nothing is held.
    pub(crate) fn new(out: &'a mut S) -> Self
        ensures same_reference { result.out.ghost_name ≡ out.entry.ghost_name }
        ensures sink { result.out.now ≡ out.old }
        ensures none { between result.bytes result.first result.last ≡ [] }
    {
        Buffer {
            out,
            bytes: [0; ROOM],
            first: 0,
            last: 0,
            failed: false,
        }
    }

    /// Hands on what is held where there is no room.
    pub(crate) fn make_room(&mut self) -> Result<(), Failed>
        ensures kept { appended (S.written self.new.out.now)
            (between self.new.bytes self.new.first self.new.last)
            ≡ appended (S.written self.old.out.now)
            (between self.old.bytes self.old.first self.old.last) }
        ensures grew { Grew (S.written self.old.out.now) (S.written self.new.out.now) }
        ensures same_reference { self.new.out.ghost_name ≡ self.old.out.ghost_name }
        ensures room { OnOk result (self.new.last < 4096) }
        ensures cause { HasCause (S.faults self.old.out.now) (S.faults self.new.out.now) result }
    {
        if self.last < ROOM {
            return Ok(());
        }
        self.hand_on()
    }

    /// Takes as many bytes as there is room for, and counts them.
    pub(crate) fn take_in(&mut self, piece: &[u8]) -> usize
        requires { self.old.last < 4096 }
        ensures count { result ≡ min (length piece.now) (4096 - self.old.last) }
        ensures same_reference { self.new.out.ghost_name ≡ self.old.out.ghost_name }
        ensures sink { self.new.out.now ≡ self.old.out.now }
        ensures held { between self.new.bytes self.new.first self.new.last
            ≡ between self.old.bytes self.old.first self.old.last ++ take result piece.now }
    {
        let count = piece.len().min(ROOM - self.last);
        let last = self.last + count;
        put_at(&mut self.bytes, self.last, &piece[..count]);
        self.last = last;
        count
    }

    /// Hands on all that is held.
    fn hand_on(&mut self) -> Result<(), Failed>
        ensures hands_on { HandsOn (S.written self.old.out.now) (S.written self.new.out.now)
            (between self.old.bytes self.old.first self.old.last)
            (between self.new.bytes self.new.first self.new.last) }
        ensures same_reference { self.new.out.ghost_name ≡ self.old.out.ghost_name }
        ensures all { OnOk result (self.new.last ≡ 0) }
        ensures cause { HasCause (S.faults self.old.out.now) (S.faults self.new.out.now) result }
    {
        let held = part(&self.bytes, self.first, self.last);
        let (count, result) = put_front(self.out, held);
        self.first += count;
        if result.is_ok() {
            self.first = 0;
            self.last = 0;
        }
        result
    }

    /// Hands on all that is held, as the last thing.
    pub(crate) fn finish(self) -> Result<(), Failed>
        ensures all { OnOk result (S.written self.exit.0.now
            ≡ appended (S.written self.entry.out.now)
            (between self.entry.bytes self.entry.first self.entry.last)) }
        ensures front { OnErr result (AppendsFront (S.written self.entry.out.now)
            (S.written self.exit.0.now) (between self.entry.bytes self.entry.first
            self.entry.last)) }
        ensures cause { HasCause (S.faults self.entry.out.now) (S.faults self.exit.0.now) result }
    {
        let Buffer {
            out,
            bytes,
            first,
            last,
            failed: _,
        } = self;
        let (_, result) = put_front(out, part(&bytes, first, last));
        result
    }
}

/// The bytes from place `first` on, as far as place `last`.
fn part(bytes: &[u8], first: usize, last: usize) -> &[u8]
    requires ordered { first ≤ last }
    requires within { last ≤ length bytes.now }
    ensures { result.now ≡ between bytes.now first last }
{
    &bytes[first..last]
}

/// Appends all bytes, or as many as are counted where the sink fails.
fn put_front<S: Sink>(out: &mut S, bytes: &[u8]) -> (usize, Result<(), Failed>)
    ensures fits { result.0 ≤ length bytes.now }
    ensures appends { S.written out.new ≡ appended (S.written out.old) (take result.0 bytes.now) }
    ensures all { OnOk result.1 (result.0 ≡ length bytes.now) }
    ensures cause { HasCause (S.faults out.old) (S.faults out.new) result.1 }
{
    let mut count = 0;
    while count < bytes.len() {
        match out.write(&bytes[count..]) {
            Ok(taken) => count += taken,
            Err(failed) => return (count, Err(failed)),
        }
    }
    (count, Ok(()))
}

/// Writes the piece over the bytes from this place on.
fn put_at(bytes: &mut [u8], at: usize, piece: &[u8])
    requires { at + length piece.now ≤ length bytes.old }
    ensures before { take at bytes.new ≡ take at bytes.old }
    ensures piece { between bytes.new at (at + length piece.now) ≡ piece.now }
    ensures length { length bytes.new ≡ length bytes.old }
{
    bytes[at..at + piece.len()].copy_from_slice(piece);
}
