//! The lines of the listing.
ghost use Rattle.std.specs.Prelude.{◌≡◌, ◌+◌, ◌<◌, ◌≤◌, ◌++◌, length, decimal};
ghost use Rattle.stations.specs.declared.TheConstants.{STATIONS};
ghost use Rattle.listing.specs.declared.line.TheConstants.{CELLS};
ghost use Rattle.listing.specs.Lines.{HoldsText, line_text, refusal_text, stand_text, hull_text, station_text, book_text, fault_text};

use crate::line::Line;
use protocol::refusal::Refusal;
use protocol::types::{Sight, Stand};
use schedule_text::types::Fault;

// A line of two words, each with a number after it.
#[tactic(auto, using(crate::proofs::Filling::decimal_20))]
fn two_numbers(first: &[u8], one: usize, second: &[u8], other: usize) -> Line
    requires { length first.now + length second.now ≤ 24 }
    ensures { HoldsText result (first.now ++ decimal one ++ second.now ++ decimal other) }
{
    let mut out = Line::blank();
    out.word(first);
    out.number(one);
    out.word(second);
    out.number(other);
    out
}

// The line of a refused step.
pub(crate) fn refusal_line(line: usize, refusal: Refusal) -> Line
    ensures { HoldsText result (refusal_text line refusal) }
{
    two_numbers(b"line ", line, b" refused ", usize::from(refusal.number()))
}

// The word for a station that is up or down.
fn stand_word(stand: Stand) -> &'static [u8]
    ensures { result.now ≡ stand_text stand }
{
    match stand {
        Stand::Fresh | Stand::Listening => b" up",
        Stand::Down => b" down",
    }
}

// Writes the hull that a station shows, or none. It has to fit.
fn hull_into(out: &mut Line, hull: Option<u16>)
    requires { length (line_text out.old) + length (hull_text hull) ≤ CELLS }
    ensures after { line_text out.new ≡ line_text out.old ++ hull_text hull }
    ensures room { length (line_text out.new) ≡ length (line_text out.old) + length (hull_text hull) }
{
    match hull {
        Some(value) => {
            out.word(b" hull ");
            out.number(usize::from(value));
        }
        None => out.word(b" hull none"),
    }
}

// The line of a station: what is seen of it, and its reception in hundredths.
#[tactic(auto, using(crate::proofs::Filling::short))]
pub(crate) fn station_line(station: usize, sight: Sight, air: usize) -> Line
    requires { (station < STATIONS) × (air < 10000) }
    ensures { HoldsText result (station_text station sight air) }
{
    let mut out = Line::blank();
    out.word(b"station ");
    out.number(station);
    out.word(stand_word(sight.stand));
    out.word(b" round ");
    out.number(usize::from(sight.round));
    hull_into(&mut out, sight.hull);
    out.word(b" air ");
    out.number(air);
    out
}

// The line that counts the book's entries.
#[tactic(auto, using(crate::proofs::Filling::decimal_20))]
pub(crate) fn book_line(entries: usize) -> Line
    ensures { HoldsText result (book_text entries) }
{
    let mut out = Line::blank();
    out.word(b"book ");
    out.number(entries);
    out
}

// The one line that is printed of a text with a fault.
pub(crate) fn fault_line(fault: Fault) -> Line
    ensures { HoldsText result (fault_text fault) }
{
    two_numbers(
        b"fault ",
        usize::from(fault.number()),
        b" line ",
        fault.line(),
    )
}
