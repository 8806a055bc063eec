//! The list of who owns which device.

ghost use Rattle.std.specs.Prelude.{◌≡◌, List, Option};
ghost use Rattle.text.specs.Reading.{IsReading, list_of};
ghost use Rattle.import.specs.Owners.{domain_text, owner_text, reading, said};

use fab_types::{DomainId, ScriptCause, ScriptFault};
use lspci::{Location, location_of};
use std::alloc::Global;
use text::{LineReader, at_blank, decimal, read_lines};

/// The greatest number of a line.
const LAST_LINE: u32 = 65_536;

/// A device, and the domain that owns it.
#[derive(Clone, Copy, Debug, PartialEq, Eq)]
pub struct Owner {
    /// Where the device is in its machine.
    pub location: Location,
    /// The domain.
    pub domain: DomainId,
}

fn domain_text(field: &[u8]) -> Option<DomainId>
    ensures { result ≡ domain_text field.now }
{
    DomainId::new(u8::try_from(decimal(field)?).ok()?)
}

/// What a line says: a device's place, a blank, and the number of a domain.
fn owner_text(line: &[u8]) -> Option<Owner>
    ensures { result ≡ owner_text line.now }
{
    let fields = at_blank(line)?;
    let location = location_of(fields.before)?;
    let domain = domain_text(fields.after)?;
    Some(Owner { location, domain })
}

/// Knows what a line of such a list says.
#[derive(Drop)]
struct OwnerReader;

impl LineReader for OwnerReader {
    type Item = Owner;

    ghost said = { λ _. said };

    fn item(
        &self,
        _alloc: Global,
        _number: u32,
        line: &[u8],
    ) -> Result<Option<Owner>, ScriptCause> {
        match owner_text(line) {
            Some(owner) => Ok(Some(owner)),
            None => Err(ScriptCause::Line),
        }
    }
}

/// Reads a list of owners. Each line has an ID, with or without its segment, a blank, and the number of a domain, 1 to 31.
/// A line that begins with `#` is a comment.
///
/// # Errors
///
/// `Line` and the first faulty line, counted from 1; or `NoMemory` and the line at which memory was refused, which is
/// not faulty, and before which no line is.
#[tactic(auto, unfolding(crate::specs::Owners::reading))]
pub fn owners_of(alloc: Global, text: &str) -> Result<Vec<Owner>, ScriptFault>
    ensures { IsReading (reading text.now) (list_of result) }
{
    read_lines(alloc, text, LAST_LINE, &OwnerReader)
}
