//! The whole listing.
ghost use Rattle.std.specs.Prelude.{◌≡◌, ◌≤◌, ◌++◌, length, IfOk, OnOk};
ghost use Rattle.stations.specs.declared.TheConstants.{STATIONS};
ghost use Rattle.protocol.specs.declared.TheConstants.{MAX_BOOK};
ghost use Rattle.listing.specs.Listing.{printed_line, refusals_text, stations_from, listing_text, fault_listing_text};

use crate::line::Line;
use crate::lines::{book_line, fault_line, refusal_line, station_line};
use crate::reception::reception;
use protocol::refusal::Refusal;
use protocol::types::Sight;
use schedule_text::types::Fault;
use std::alloc::{AllocError, Global};

/// A step that was refused: its line in the schedule, and why.
#[derive(Clone, Copy)]
pub struct RefusedStep {
    pub line: usize,
    pub refusal: Refusal,
}

// Adds a line and its end. Where it is out of memory, nothing is said of `out`.
fn add(out: &mut Vec<u8>, line: &Line) -> Result<(), AllocError>
    ensures { OnOk result (out.new.items ≡ out.old.items ++ printed_line line.now) }
{
    out.extend_from_slice(line.text())?;
    out.push(b'\n')?;
    Ok(())
}

/// What is told of a run: the refused steps in their order, what is seen of each of at most 16 stations, and the book's
/// entries, at most 65,536 words.
#[derive(Drop)]
pub struct Report<'a> {
    pub refused: Vec<RefusedStep>,
    pub stations: Vec<Sight>,
    pub book: &'a [u64],
    ghost few: { length stations.items ≤ STATIONS },
    ghost short: { length book.now ≤ MAX_BOOK },
}

impl Report<'_> {
    // Adds a line for each refused step.
    fn add_refusals(&self, out: &mut Vec<u8>) -> Result<(), AllocError>
        ensures { OnOk result (out.new.items ≡ out.old.items ++ refusals_text self.now.refused.items) }
    {
        for step in self.refused.iter() {
            add(out, &refusal_line(step.line, step.refusal))?;
        }
        Ok(())
    }

    // Adds a line for each station, with its reception from the book.
    fn add_stations(&self, out: &mut Vec<u8>) -> Result<(), AllocError>
        ensures { OnOk result (out.new.items ≡ out.old.items
            ++ stations_from (length self.now.stations.items) self.now.book.now 0 self.now.stations.items) }
    {
        for (station, sight) in self.stations.iter().enumerate() {
            let air = reception(self.stations.len(), station, self.book);
            add(out, &station_line(station, *sight, air))?;
        }
        Ok(())
    }

    /// The lines of the refused steps, of the stations, and of the number of the book's entries. Fails only out of memory.
    pub fn print(&self, heap: Global) -> Result<Vec<u8>, AllocError>
        ensures { IfOk result (λ v. v.items ≡ listing_text self.now.refused.items self.now.stations.items self.now.book.now) }
    {
        let mut out = Vec::new(heap);
        self.add_refusals(&mut out)?;
        self.add_stations(&mut out)?;
        add(&mut out, &book_line(self.book.len()))?;
        Ok(out)
    }
}

/// What is printed of a text with a fault. Fails only out of memory.
pub fn fault_listing(heap: Global, fault: Fault) -> Result<Vec<u8>, AllocError>
    ensures { IfOk result (λ v. v.items ≡ fault_listing_text fault) }
{
    let mut out = Vec::new(heap);
    add(&mut out, &fault_line(fault))?;
    Ok(out)
}
