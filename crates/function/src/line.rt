//! One line of a DMA program, and the request that it makes.

ghost use Rattle.std.specs.Prelude.{◌≡◌, ◌+◌, ◌<◌, ◌≤◌, true, length};
ghost use Rattle.function.specs.Program.{head_of, is_good, IsGood, line_at, operation_of, read_of, le_u16_at, le_u64_at, write_of};
ghost use Rattle.tlp_view.specs.Requests.{RequestFits};

use crate::registers::{BUFFER, PROGRAM};
use fab_types::{AddressType, Bdf};
use tlp_view::{Attributes, Enables, RequestBuf, RequestHead};

/// What a line asks for.
#[derive(Clone, Copy, Debug, PartialEq, Eq)]
pub(crate) enum Operation {
    Halt,
    /// To write a part of the buffer to memory.
    Write,
    /// To read memory into a part of the buffer.
    Read,
    /// To wait for the data of all read lines.
    Fence,
    Unknown,
}

/// A line of a program.
#[derive(Clone, Copy, Debug, PartialEq, Eq)]
pub(crate) struct ProgramLine {
    pub(crate) operation: Operation,
    /// In DW.
    pub(crate) count: u8,
    /// In bytes, from the start of the buffer.
    pub(crate) offset: u16,
    pub(crate) relaxed_ordering: bool,
    /// In bytes.
    pub(crate) address: u64,
}

fn operation_of(code: u8) -> Operation
    ensures { result ≡ operation_of code }
{
    if code == 0 {
        Operation::Halt
    } else if code == 1 {
        Operation::Write
    } else if code == 2 {
        Operation::Read
    } else if code == 3 {
        Operation::Fence
    } else {
        Operation::Unknown
    }
}

/// The 16 bits at this place, the low byte first.
fn le_u16_at(page: &[u8], at: usize) -> u16
    requires { at + 2 ≤ length page.now }
    ensures { result ≡ le_u16_at page.now at }
{
    u16::from_le_bytes([page[at], page[at + 1]])
}

/// The 64 bits at this place, the low byte first.
#[tactic(auto, unfolding(crate::specs::Program::le_u64_at))]
fn le_u64_at(page: &[u8], at: usize) -> u64
    requires { at + 8 ≤ length page.now }
    ensures { result ≡ le_u64_at page.now at }
{
    u64::from_le_bytes([
        page[at],
        page[at + 1],
        page[at + 2],
        page[at + 3],
        page[at + 4],
        page[at + 5],
        page[at + 6],
        page[at + 7],
    ])
}

/// The line of this number.
pub(crate) fn line_at(page: &[u8], number: usize) -> ProgramLine
    requires size { length page.now ≡ 4096 }
    requires inside { number < 16 }
    ensures { result ≡ line_at page.now number }
{
    let at = PROGRAM + 16 * number;
    ProgramLine {
        operation: operation_of(page[at]),
        count: page[at + 1],
        offset: le_u16_at(page, at + 2),
        relaxed_ordering: page[at + 4] % 2 == 1,
        address: le_u64_at(page, at + 8),
    }
}

/// Does a write or read line stay in the buffer and in a page of memory, in whole DWs?
pub(crate) fn is_good(line: ProgramLine) -> bool
    ensures value { result ≡ is_good line }
    ensures facts { result ≡ true → IsGood line }
{
    let size = 4 * u64::from(line.count);
    1 <= line.count
        && line.count <= 64
        && line.offset % 4 == 0
        && u64::from(line.offset) + size <= 1024
        && line.address % 4 == 0
        && line.address % 4096 + size <= 4096
}

fn head_of(id: Bdf, tag: u8, line: ProgramLine) -> RequestHead
    requires { IsGood line }
    ensures value { result ≡ head_of id tag line }
    ensures fits { RequestFits result line.count }
{
    RequestHead {
        requester: id,
        tag,
        enables: Enables::all(u16::from(line.count)),
        address: line.address,
        address_type: AddressType::Untranslated,
        attributes: Attributes {
            id_based_ordering: false,
            relaxed_ordering: line.relaxed_ordering,
            no_snoop: false,
        },
    }
}

/// The request of a write line, which takes no Tag.
pub(crate) fn write_of(id: Bdf, page: &[u8], line: ProgramLine) -> RequestBuf
    requires size { length page.now ≡ 4096 }
    requires good { IsGood line }
    ensures { result ≡ write_of id page.now line }
{
    let start = BUFFER + usize::from(line.offset);
    let bytes = &page[start..start + 4 * usize::from(line.count)];
    RequestBuf::write(head_of(id, 0, line), bytes)
}

/// The request of a read line.
pub(crate) fn read_of(id: Bdf, tag: u8, line: ProgramLine) -> RequestBuf
    requires { IsGood line }
    ensures { result ≡ read_of id tag line }
{
    RequestBuf::read(head_of(id, tag, line), u16::from(line.count))
}
