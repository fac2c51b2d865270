// The pieces of written texts: bytes, numbers, data texts, sorts, points and offsets.
//
// Signed numbers come by reference or within their point: the prover sees fields of a structure plainly, and a bare signed
// number only through its bits.
ghost use Rattle.std.specs.Prelude.{◌≡◌, ◌≤ℤ◌, ◌++◌, ◌∷◌, [], pos, codes};
ghost use Rattle.std.specs.List.{flat_map};
ghost use Rattle.std.specs.Fmt.{signed_decimal, decimal};
ghost use Rattle.std.specs.Int.{int_rem_euclid};
ghost use Rattle.lrp_io.specs.Causes.{HasCause};
ghost use Rattle.lrp_io.specs.Pieces.{IsWritten};
ghost use Rattle.lrp_model.specs.Printed.{quoted, escaped, point_bytes, sort_bytes, offset_bytes};

use itoa::Buffer;
use lrp_io::{Failed, Sink, put_all};
use lrp_model::{RowPoint, Sort};

/// These bytes.
pub fn write_bytes<S: Sink>(out: &mut S, bytes: &[u8]) -> Result<(), Failed>
    ensures text { IsWritten (S.written out.old) (S.written out.new) bytes.now result }
    ensures cause { HasCause (S.faults out.old) (S.faults out.new) result }
{
    put_all(out, bytes)
}

/// A natural number.
pub fn write_count<S: Sink>(out: &mut S, count: u64) -> Result<(), Failed>
    ensures text { IsWritten (S.written out.old) (S.written out.new) (decimal count) result }
    ensures cause { HasCause (S.faults out.old) (S.faults out.new) result }
{
    put_all(out, Buffer::new().format(count).as_bytes())
}

/// The number of a step that is read.
pub fn write_number<S: Sink>(out: &mut S, number: u32) -> Result<(), Failed>
    ensures text { IsWritten (S.written out.old) (S.written out.new) (decimal number) result }
    ensures cause { HasCause (S.faults out.old) (S.faults out.new) result }
{
    put_all(out, Buffer::new().format(number).as_bytes())
}

/// An integer.
pub fn write_integer<S: Sink>(out: &mut S, value: &i64) -> Result<(), Failed>
    ensures text { IsWritten (S.written out.old) (S.written out.new)
        (signed_decimal value.now) result }
    ensures cause { HasCause (S.faults out.old) (S.faults out.new) result }
{
    put_all(out, Buffer::new().format(*value).as_bytes())
}

/// Nothing, ` + a` or ` - b`, after the name of a variable.
pub fn write_offset<S: Sink>(out: &mut S, plus: &i64) -> Result<(), Failed>
    ensures text { IsWritten (S.written out.old) (S.written out.new)
        (offset_bytes plus.now) result }
    ensures cause { HasCause (S.faults out.old) (S.faults out.new) result }
{
    if *plus > 0 {
        write_signed(out, b" + ", plus.unsigned_abs())
    } else if *plus < 0 {
        write_signed(out, b" - ", plus.unsigned_abs())
    } else {
        Ok(())
    }
}

// A sign and a natural number.
fn write_signed<S: Sink>(out: &mut S, sign: &[u8], count: u64) -> Result<(), Failed>
    ensures text { IsWritten (S.written out.old) (S.written out.new)
        (sign.now ++ decimal count) result }
    ensures cause { HasCause (S.faults out.old) (S.faults out.new) result }
{
    write_bytes(out, sign)?;
    write_count(out, count)
}

// A byte of a data text; a quote or a backslash has a backslash before it.
fn write_byte<S: Sink>(out: &mut S, byte: u8) -> Result<(), Failed>
    ensures text { IsWritten (S.written out.old) (S.written out.new) (escaped byte) result }
    ensures cause { HasCause (S.faults out.old) (S.faults out.new) result }
{
    if byte == b'"' || byte == b'\\' {
        put_all(out, &[b'\\', byte])
    } else {
        put_all(out, &[byte])
    }
}

/// A data text between quotes.
pub fn write_quoted<S: Sink>(out: &mut S, text: &[u8]) -> Result<(), Failed>
    ensures text { IsWritten (S.written out.old) (S.written out.new) (quoted text.now) result }
    ensures cause { HasCause (S.faults out.old) (S.faults out.new) result }
{
    put_all(out, b"\"")?;
    for byte in text {
        write_byte(out, *byte)?;
    }
    put_all(out, b"\"")
}

/// The name of a sort.
pub fn write_sort<S: Sink>(out: &mut S, sort: &Sort) -> Result<(), Failed>
    ensures text { IsWritten (S.written out.old) (S.written out.new) (sort_bytes sort.now) result }
    ensures cause { HasCause (S.faults out.old) (S.faults out.new) result }
{
    match sort {
        Sort::Time => put_all(out, b"time"),
        Sort::Data => put_all(out, b"data"),
        Sort::Named { name } => put_all(out, name.as_bytes()),
    }
}

// The offset of a point, taken modulo its period.
fn write_residue<S: Sink>(out: &mut S, point: &RowPoint) -> Result<(), Failed>
    requires { pos 1 ≤ℤ point.now.period }
    ensures text { IsWritten (S.written out.old) (S.written out.new)
        (signed_decimal (int_rem_euclid point.now.offset point.now.period)) result }
    ensures cause { HasCause (S.faults out.old) (S.faults out.new) result }
{
    put_all(
        out,
        Buffer::new()
            .format(point.offset.rem_euclid(point.period))
            .as_bytes(),
    )
}

// The period of a point.
fn write_period<S: Sink>(out: &mut S, point: &RowPoint) -> Result<(), Failed>
    ensures text { IsWritten (S.written out.old) (S.written out.new)
        (signed_decimal point.now.period) result }
    ensures cause { HasCause (S.faults out.old) (S.faults out.new) result }
{
    put_all(out, Buffer::new().format(point.period).as_bytes())
}

/// `c+kn`, with c taken modulo k.
pub fn write_point<S: Sink>(out: &mut S, point: &RowPoint) -> Result<(), Failed>
    requires { pos 1 ≤ℤ point.now.period }
    ensures text { IsWritten (S.written out.old) (S.written out.new)
        (point_bytes point.now) result }
    ensures cause { HasCause (S.faults out.old) (S.faults out.new) result }
{
    write_residue(out, point)?;
    write_bytes(out, b"+")?;
    write_period(out, point)?;
    write_bytes(out, b"n")
}
