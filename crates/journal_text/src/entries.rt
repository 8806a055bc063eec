//! The lines of entries.

ghost use Rattle.std.specs.Prelude.{◌≡◌, Some, OnOk, IfOk};
ghost use Rattle.std.specs.Io.KnownBytes.{Appends};
ghost use Rattle.journal_text.specs.Words.{access_text, bytes_text, entry_line, entry_text};

use crate::words::{OffsetWord, PartiesWords, PlaceWords};
use domain::Entry;
use fab_types::{DomainId, HostAccess, Operation};
use std::alloc::{AllocError, Global};
use std::io;
use std::io::Write;

/// Lower-case hexadecimal, or `-` for no bytes.
fn bytes_word(alloc: Global, bytes: &[u8]) -> Result<String, AllocError>
    ensures { IfOk result (λ word. word.bytes.items ≡ bytes_text bytes.now) }
{
    if bytes.is_empty() {
        format!(in alloc; "-")
    } else {
        hex::encode(alloc, bytes)
    }
}

/// Writes an access, as a script has it.
fn write_access<W: Write>(alloc: Global, out: &mut W, access: &HostAccess) -> io::Result<()>
    ensures { OnOk result (Appends (W.contents out.old) (W.contents out.new) (access_text access.now access.now.operation)) }
{
    let (function, offset) = (access.function, OffsetWord(access.offset));
    match &access.operation {
        Operation::Read(count) => write!(out, "read {function} {offset} {count}"),
        Operation::Write(bytes) => {
            let word = bytes_word(alloc, bytes.as_slice())?;
            write!(out, "write {function} {offset} {word}")
        }
    }
}

fn write_text<W: Write>(
    alloc: Global,
    out: &mut W,
    domain: DomainId,
    entry: &Entry,
) -> io::Result<()>
    ensures { OnOk result (Appends (W.contents out.old) (W.contents out.new) (entry_text domain entry.now)) }
{
    match entry {
        Entry::Submit(function, bytes) => {
            let word = bytes_word(alloc, bytes.as_slice())?;
            write!(out, "submit {function} {word}")
        }
        Entry::Tick(function) => write!(out, "tick {function}"),
        Entry::Mmio(access) => {
            write!(out, "mmio {domain} ")?;
            write_access(alloc, out, access)
        }
        Entry::Refuse(number) => write!(out, "refuse {number}"),
        Entry::Carry(number) => write!(out, "carry {number}"),
        Entry::Deliver(number) => write!(out, "deliver {number}"),
        Entry::Alien(place, sender, bytes) => {
            let (place, sender) = (PlaceWords(*place), PartiesWords(*sender));
            let word = bytes_word(alloc, bytes.as_slice())?;
            write!(out, "alien {place} {sender} {word}")
        }
    }
}

/// Writes the line of an entry of the journal of this domain.
///
/// # Errors
///
/// Those of the writer, and `OutOfMemory` where memory was refused.
pub(crate) fn write_entry<W: Write>(
    alloc: Global,
    out: &mut W,
    domain: DomainId,
    entry: &Entry,
) -> io::Result<()>
    ensures { OnOk result (Appends (W.contents out.old) (W.contents out.new) (entry_line domain entry.now)) }
{
    write_text(alloc, out, domain, entry)?;
    out.write_all(b"\n")
}
