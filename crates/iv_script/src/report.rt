//! The report of a run.

ghost use Rattle.std.specs.Prelude.{◌≡◌, ◌+◌, length, pos, map, OnOk, OnErr};
ghost use Rattle.std.specs.List.{concat};
ghost use Rattle.std.specs.Fmt.{signed_decimal};
ghost use Rattle.iv_base.specs.Counts.{capped};
ghost use Rattle.iv_base.specs.Sinks.{grown, GrewByPrefix, HasCause};
ghost use Rattle.text_pieces.specs.Stages.{Puts};
ghost use Rattle.iv_script.specs.Report.{spaced, row, piece_text, returned_text, event_line, reason_word, end_text, area_line, shown_areas, report};

use itoa::Buffer;
use iv_base::{Sink, SinkFault};
use run_records::{AreaCells, End, Event, Outcome, Piece, Reason};
use text_pieces::{Gathered, Pieces};

// ---- numbers

fn put_number<P: Pieces>(value: &i128, out: &mut P)
    ensures { Puts (P.stage out.old) (P.stage out.new) (signed_decimal value.now) }
{
    let mut digits = Buffer::new();
    out.put(digits.format(*value).as_bytes());
}

/// A space and a number.
fn put_spaced<P: Pieces>(value: &i128, out: &mut P)
    ensures { Puts (P.stage out.old) (P.stage out.new) (spaced value.now) }
{
    out.put(b" ");
    put_number(value, out);
}

/// A space and the number of a check.
fn put_site<P: Pieces>(site: u32, out: &mut P)
    ensures { Puts (P.stage out.old) (P.stage out.new) (spaced (pos site)) }
{
    let mut digits = Buffer::new();
    out.put(b" ");
    out.put(digits.format(site).as_bytes());
}

/// Numbers, each behind a space.
fn put_all_spaced<P: Pieces>(values: &[i128], out: &mut P)
    ensures { Puts (P.stage out.old) (P.stage out.new) (concat (map spaced values.now)) }
{
    for value in values {
        put_spaced(value, out);
    }
}

/// Numbers with a space between two of them.
fn put_row<P: Pieces>(values: &[i128], out: &mut P)
    ensures { Puts (P.stage out.old) (P.stage out.new) (row values.now) }
{
    match values.split_first() {
        None => out.put(b""),
        Some((first, rest)) => {
            put_number(first, out);
            put_all_spaced(rest, out);
        }
    }
}

// ---- events

/// An argument of an import, behind a space.
fn put_piece<P: Pieces>(piece: &Piece, out: &mut P)
    ensures { Puts (P.stage out.old) (P.stage out.new) (piece_text piece.now) }
{
    match piece {
        Piece::Value(value) => put_spaced(value, out),
        Piece::Cells(cells) => {
            out.put(b" [");
            put_row(cells.as_slice(), out);
            out.put(b"]");
        }
    }
}

fn put_pieces<P: Pieces>(pieces: &[Piece], out: &mut P)
    ensures { Puts (P.stage out.old) (P.stage out.new) (concat (map piece_text pieces.now)) }
{
    for piece in pieces {
        put_piece(piece, out);
    }
}

/// The result of an entry call, where it has one.
fn put_returned<P: Pieces>(value: &Option<i128>, out: &mut P)
    ensures { Puts (P.stage out.old) (P.stage out.new) (returned_text value.now) }
{
    match value {
        None => out.put(b""),
        Some(value) => put_spaced(value, out),
    }
}

fn put_event<P: Pieces>(event: &Event, out: &mut P)
    ensures { Puts (P.stage out.old) (P.stage out.new) (event_line event.now) }
{
    match event {
        Event::Call(name, arguments) => {
            out.put(b"call ");
            out.put(name.as_slice());
            put_pieces(arguments.as_slice(), out);
            out.put(b"\n");
        }
        Event::Ret(name, value) => {
            out.put(b"ret ");
            out.put(name.as_slice());
            put_returned(value, out);
            out.put(b"\n");
        }
    }
}

fn put_events<P: Pieces>(events: &[Event], out: &mut P)
    ensures { Puts (P.stage out.old) (P.stage out.new) (concat (map event_line events.now)) }
{
    for event in events {
        put_event(event, out);
    }
}

// ---- the end

fn reason_word(reason: Reason) -> &'static [u8]
    ensures { result.now ≡ reason_word reason }
{
    match reason {
        Reason::SignedOverflow => b"overflow",
        Reason::DivZero => b"divzero",
        Reason::Shift => b"shift",
        Reason::Dead => b"dead",
        Reason::Bounds => b"bounds",
        Reason::BadAccess => b"access",
        Reason::Indeterminate => b"indeterminate",
        Reason::ConstWrite => b"constwrite",
        Reason::NoValue => b"novalue",
        Reason::Implementation => b"implementation",
    }
}

/// How a run came out, without the end of its line.
fn put_end<P: Pieces>(end: End, out: &mut P)
    ensures { Puts (P.stage out.old) (P.stage out.new) (end_text end) }
{
    match end {
        End::Ended => out.put(b"end"),
        End::Stopped(site) => {
            out.put(b"stop");
            put_site(site, out);
        }
        End::NoReply => out.put(b"noreply"),
        End::BadReply => out.put(b"badreply"),
        End::Going => out.put(b"going"),
        End::Undefined(reason) => {
            out.put(b"undefined ");
            out.put(reason_word(reason));
        }
    }
}

// ---- areas

fn put_area<P: Pieces>(area: &AreaCells, out: &mut P)
    ensures { Puts (P.stage out.old) (P.stage out.new) (area_line area.now) }
{
    out.put(b"area ");
    out.put(area.name.as_slice());
    put_all_spaced(area.cells.as_slice(), out);
    out.put(b"\n");
}

fn put_areas<P: Pieces>(areas: &[AreaCells], out: &mut P)
    ensures { Puts (P.stage out.old) (P.stage out.new) (concat (map area_line areas.now)) }
{
    for area in areas {
        put_area(area, out);
    }
}

/// The areas that a run with this end shows.
fn shown_areas(end: End, areas: &[AreaCells]) -> &[AreaCells]
    ensures { result.now ≡ shown_areas end areas.now }
{
    match end {
        End::Going | End::Undefined(_) => &[],
        End::Ended | End::Stopped(_) | End::NoReply | End::BadReply => areas,
    }
}

// ---- the whole

fn put_report<P: Pieces>(outcome: &Outcome, out: &mut P)
    ensures { Puts (P.stage out.old) (P.stage out.new) (report outcome.now) }
{
    put_events(outcome.events.as_slice(), out);
    put_end(outcome.end, out);
    out.put(b"\n");
    put_areas(shown_areas(outcome.end, outcome.areas.as_slice()), out);
}

/// Writes the report of a run: a line for each event, one for its end, and one for each area, save where the run goes on
/// or is undefined.
///
/// It takes no memory. A `SinkFault` comes only where the sink's count of faults rose, and the sink then holds some front
/// of the report.
pub fn write_report<K: Sink>(o: &Outcome, out: &mut K) -> Result<(), SinkFault>
    ensures held { OnOk result (K.held out.new ≡ grown (K.held out.old) (report o.now)) }
    ensures taken { OnOk result (K.taken out.new ≡ capped (K.taken out.old + length (report o.now))) }
    ensures part { OnErr result (GrewByPrefix (K.held out.old) (K.held out.new) (report o.now)) }
    ensures cause { HasCause (K.faults out.old) (K.faults out.new) result }
{
    let mut gathered = Gathered::over(out);
    put_report(o, &mut gathered);
    gathered.finish()
}
