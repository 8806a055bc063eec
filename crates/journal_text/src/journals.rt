//! The journal of a domain as a text.

ghost use Rattle.std.specs.Prelude.{◌≡◌, ◌+◌, ◌*◌, ◌≤◌, IfOk, IsSome, OnOk, length};
ghost use Rattle.std.specs.Io.KnownBytes.{Appends};
ghost use Rattle.domain.specs.Machine.{change};
ghost use Rattle.domain_state.specs.State.{start_state};
ghost use Rattle.journal_text.specs.Journals.{IsReadBack, journal_text, numbers_in_flight};
ghost use Rattle.journal_text.specs.Steps.{IsWritten};

use crate::entries::write_entry;
use crate::fits::entry_fits;
use crate::flight::write_in_flight;
use crate::notes::write_packet_note;
use domain::{Domain, Entry, EntryFault};
use layout::Start;
use std::alloc::{AllocError, Global};
use std::io;
use std::io::{ErrorKind, Write};

/// Writes the journal of a domain.
/// It has a line for each entry, behind it a comment on the packet that it made, and last what is in flight.
/// `JournalText::read` reads it as the same entries.
///
/// # Errors
///
/// Those of the writer, and `OutOfMemory` where memory was refused.
pub fn write_journal<W: Write>(alloc: Global, out: &mut W, domain: &Domain) -> io::Result<()>
    ensures written { OnOk result (Appends (W.contents out.old) (W.contents out.new) (journal_text domain.now.share domain.now.journal)) }
    // A text of at most 16,777,216 lines is read as the same entries.
    ensures read_back { OnOk result (2 * length domain.now.journal + 1 ≤ 16777216 → IsReadBack domain.now.share domain.now.journal) }
{
    let share = domain.start();
    // for the proof: a domain's number is 1 to 31
    let _ = share.domain().get();
    // What a packet was is told by the domain's state when it was made.
    let mut machine = at_start(alloc, share)?;
    for entry in domain.journal() {
        write_step(alloc, out, &mut machine, entry)?;
    }
    let numbers = in_flight(alloc, &machine)?;
    write_in_flight(out, &numbers)
}

/// A domain before its first entry.
fn at_start(alloc: Global, start: &Start) -> io::Result<Domain>
    ensures { IfOk result (λ domain. (domain.share ≡ start.now) × (domain.state ≡ start_state start.now)) }
{
    match Domain::replay(alloc, start, &[]) {
        Ok(domain) => Ok(domain),
        Err(_) => Err(io::Error::from(ErrorKind::OutOfMemory)),
    }
}

/// Writes an entry, and what it makes of this domain.
fn write_step<W: Write>(
    alloc: Global,
    out: &mut W,
    machine: &mut Domain,
    entry: &Entry,
) -> io::Result<()>
    requires { IsSome (change machine.old.share machine.old.state entry.now) }
    ensures { OnOk result (IsWritten (W.contents out.old) (W.contents out.new) machine.old entry.now machine.new) }
{
    // for the proof: what is written is read back
    entry_fits(entry);
    let number = machine.made();
    write_entry(alloc, out, machine.start().domain(), entry)?;
    match machine.apply(entry) {
        Ok(()) => {}
        Err(EntryFault::NoMemory) => return Err(io::Error::from(ErrorKind::OutOfMemory)),
        Err(EntryFault::Illegal) => unreachable!(),
    }
    match machine.bytes(number) {
        Some(bytes) => write_packet_note(out, number, bytes),
        None => Ok(()),
    }
}

/// The numbers that are in flight, rising.
fn in_flight(alloc: Global, domain: &Domain) -> Result<Vec<u64>, AllocError>
    ensures { IfOk result (λ numbers. numbers.items ≡ numbers_in_flight domain.now.state) }
{
    let mut numbers = Vec::new(alloc);
    for number in 0..domain.made() {
        if domain.bytes(number).is_some() {
            numbers.push(number)?;
        }
    }
    Ok(numbers)
}
