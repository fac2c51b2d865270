// The text of a page: its lines, and the line after them.
ghost use Rattle.std.specs.Prelude.{[], ◌∷◌, ◌++◌, map, None, Some};
ghost use Rattle.std.specs.List.{flat_map};
ghost use Rattle.lrp_io.specs.Causes.{HasCause};
ghost use Rattle.lrp_io.specs.Pieces.{IsWritten};
ghost use Rattle.lrp_answer_text.specs.Lines.{is_json};
ghost use Rattle.lrp_model.specs.Pages.{last_of};
ghost use Rattle.lrp_model.specs.PrintedPages.{end_line, token_after, token_of};
ghost use Rattle.lrp_outputs.specs.Known.{HaveCivilTimes, IsKnownSpot};
ghost use Rattle.lrp_outputs.specs.Spots.{answer_tuple};
ghost use Rattle.lrp_outputs.specs.Outputs.{page_text};
ghost use Rattle.lrp_outputs.specs.PageLines.{line_as};

use crate::page::Page;
use lrp_answer_text::{Form, write_line};
use lrp_civil::write_civil_line;
use lrp_io::{Failed, Sink};
use lrp_model::Spot;
use lrp_print::write_bytes;
use lrp_token::write_token;

/// The lines of a page, and the line after them.
pub fn write_page<S: Sink>(out: &mut S, page: &Page) -> Result<(), Failed>
    ensures text { IsWritten (S.written out.old) (S.written out.new) (page_text page.now) result }
    ensures cause { HasCause (S.faults out.old) (S.faults out.new) result }
{
    write_lines(out, page)?;
    write_end(out, page)
}

/// The line of each spot.
fn write_lines<S: Sink>(out: &mut S, page: &Page) -> Result<(), Failed>
    ensures text { IsWritten (S.written out.old) (S.written out.new)
        (flat_map (λ spot. line_as page.now.civil (is_json page.now.form)
        (answer_tuple page.now.answer spot)) page.now.spots) result }
    ensures cause { HasCause (S.faults out.old) (S.faults out.new) result }
{
    let spots = page.spots.as_slice();
    for spot in spots {
        write_spot(out, page, spot)?;
    }
    Ok(())
}

/// The line of a spot, with its times as dates where they are civil ones.
fn write_spot<S: Sink>(out: &mut S, page: &Page, spot: &Spot) -> Result<(), Failed>
    requires known { IsKnownSpot page.now.answer spot.now }
    requires dates { HaveCivilTimes page.now.civil page.now.answer (spot.now ∷ []) }
    ensures text { IsWritten (S.written out.old) (S.written out.new)
        (line_as page.now.civil (is_json page.now.form) (answer_tuple page.now.answer spot.now))
        result }
    ensures cause { HasCause (S.faults out.old) (S.faults out.new) result }
{
    if page.civil {
        write_civil_line(out, &page.answer, spot, &page.form)
    } else {
        write_line(out, &page.answer, spot, &page.form)
    }
}

/// The line after those of the spots: whether more come, with a token.
fn write_end<S: Sink>(out: &mut S, page: &Page) -> Result<(), Failed>
    ensures text { IsWritten (S.written out.old) (S.written out.new)
        (end_line (is_json page.now.form)
        (token_after page.now.files page.now.more
        (last_of (map (answer_tuple page.now.answer) page.now.spots)))) result }
    ensures cause { HasCause (S.faults out.old) (S.faults out.new) result }
{
    let Some(last) = page.spots.as_slice().last() else {
        return write_no_more(out, &page.form);
    };
    if page.more {
        write_more(out, page, last)
    } else {
        write_no_more(out, &page.form)
    }
}

/// The line of a page that is the last one.
fn write_no_more<S: Sink>(out: &mut S, form: &Form) -> Result<(), Failed>
    ensures text { IsWritten (S.written out.old) (S.written out.new)
        (end_line (is_json form.now) None) result }
    ensures cause { HasCause (S.faults out.old) (S.faults out.new) result }
{
    match form {
        Form::Plain => write_bytes(out, b"end\n"),
        Form::Json { .. } => write_bytes(out, b"{\"more\":null}\n"),
    }
}

/// The line with the token of a spot, after which the next page begins.
fn write_more<S: Sink>(out: &mut S, page: &Page, last: &Spot) -> Result<(), Failed>
    requires { IsKnownSpot page.now.answer last.now }
    ensures text { IsWritten (S.written out.old) (S.written out.new)
        (end_line (is_json page.now.form)
        (Some (token_of page.now.files (answer_tuple page.now.answer last.now)))) result }
    ensures cause { HasCause (S.faults out.old) (S.faults out.new) result }
{
    match page.form {
        Form::Plain => write_between(out, b"more ", page, last, b"\n"),
        Form::Json { .. } => write_between(out, b"{\"more\":\"", page, last, b"\"}\n"),
    }
}

/// The token of a spot between other bytes.
fn write_between<S: Sink>(
    out: &mut S,
    before: &[u8],
    page: &Page,
    last: &Spot,
    after: &[u8],
) -> Result<(), Failed>
    requires { IsKnownSpot page.now.answer last.now }
    ensures text { IsWritten (S.written out.old) (S.written out.new)
        (before.now ++ (token_of page.now.files (answer_tuple page.now.answer last.now)
        ++ after.now)) result }
    ensures cause { HasCause (S.faults out.old) (S.faults out.new) result }
{
    write_bytes(out, before)?;
    write_last(out, page, last)?;
    write_bytes(out, after)
}

/// The token of a spot.
fn write_last<S: Sink>(out: &mut S, page: &Page, last: &Spot) -> Result<(), Failed>
    requires { IsKnownSpot page.now.answer last.now }
    ensures text { IsWritten (S.written out.old) (S.written out.new)
        (token_of page.now.files (answer_tuple page.now.answer last.now)) result }
    ensures cause { HasCause (S.faults out.old) (S.faults out.new) result }
{
    let shape = page.answer.store.shape();
    write_token(out, last, shape, &page.answer.domain, &page.files)
}
