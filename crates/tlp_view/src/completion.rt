//! Completions that answer a request (PCIe 4.0, 2.2.9 and 2.3.1).

ghost use Rattle.std.specs.Prelude.{true, ◌≡◌, ◌<◌, ◌≤◌, ◌*◌, ◌^◌, [], ◌++◌, length, replicate};
ghost use Rattle.tlp_view.specs.Spelling.{be_u16, header, status_bits};
ghost use Rattle.tlp_view.specs.Completions.{completion, HeadFits, first_place, last_end, byte_count, lower_address};

use crate::attributes::Attributes;
use crate::bits::is_set;
use crate::cells::Cells;
use crate::enables::Enables;
use crate::view::TlpView;
use byteorder::{BigEndian, ByteOrder};
use fab_types::{Bdf, Status};
use std::marker::Model;

/// The header fields of a completion (PCIe 4.0, 2.2.9). All others of its header are 0, or follow from its payload.
#[derive(Clone, Copy, Debug, PartialEq, Eq)]
pub struct CompletionHead {
    /// Completer ID: who answers.
    pub completer: Bdf,
    /// Completion Status.
    pub status: Status,
    /// Byte Count, 12 bits.
    pub byte_count: u16,
    /// Requester ID: to whom the completion goes.
    pub requester: Bdf,
    /// The Tag of the request.
    pub tag: u8,
    /// Lower Address, 7 bits.
    pub lower_address: u8,
    /// The Attr field.
    pub attributes: Attributes,
}

impl CompletionHead {
    ghost use Rattle.std.specs.Prelude.{ℕ, List, [], length};
    ghost use Rattle.tlp_view.specs.Kinds.{is_fetch_add};
    ghost use Rattle.tlp_view.specs.declared.kind.Kind.TheVariants.{MRd};
    ghost use Rattle.tlp_view.specs.Packet.{dw_count};
    ghost use Rattle.tlp_view.specs.Completions.{atomic_completion, completion_bytes, completion_of, read_completion, refusal};
    ghost use Rattle.tlp_view.specs.Spelling.{Spells};

    /// Of the successful completion of this memory read, with its data.
    pub fn of_read(completer: Bdf, request: &TlpView) -> CompletionHead
        requires read { (request.now).kind ≡ MRd }
        // Byte Count has no value for 4,096 bytes.
        requires short { dw_count (request.now).length < 1024 }
        ensures value { (payload : List ℕ) → 4 ≤ length payload → completion_of result payload ≡ read_completion completer request.now payload }
        ensures fits { HeadFits result }
    {
        let enables = request.enables().unwrap();
        let address = request.address().unwrap();
        CompletionHead {
            completer,
            status: Status::SC,
            byte_count: byte_count(enables, request.dw_length()),
            requester: request.requester(),
            tag: request.tag(),
            lower_address: lower_address(enables, address),
            attributes: request.attr(),
        }
    }

    /// Of the successful completion of this FetchAdd.
    /// It has the bytes that stood there, 4 or 8: as many as the request carries.
    #[tactic(auto, using(crate::proofs::Operands::operand_size))]
    pub fn of_atomic(completer: Bdf, request: &TlpView) -> CompletionHead
        requires { is_fetch_add (request.now).kind ≡ true }
        ensures value { (payload : List ℕ) → length payload ≡ 4 * dw_count (request.now).length → completion_of result payload ≡ atomic_completion completer request.now payload }
        ensures fits { HeadFits result }
        ensures short { dw_count (request.now).length ≤ 2 }
    {
        CompletionHead {
            completer,
            status: Status::SC,
            byte_count: request.payload().len() as u16,
            requester: request.requester(),
            tag: request.tag(),
            lower_address: 0,
            attributes: request.attr(),
        }
    }

    /// Of a completion of this request that has no data.
    /// Byte Count and Lower Address are this project's own choice, and so is that a locked read (`MRdLk`) gets a
    /// `Cpl`, where the standard has `CplLk` (PCIe 4.0, 2.2.1).
    pub fn of_refusal(completer: Bdf, status: Status, request: &TlpView) -> CompletionHead
        ensures value { completion_of result [] ≡ refusal completer status request.now }
        ensures fits { HeadFits result }
    {
        CompletionHead {
            completer,
            status,
            byte_count: 4,
            requester: request.requester(),
            tag: request.tag(),
            lower_address: 0,
            attributes: request.attr(),
        }
    }

    /// The header of a completion with so many DW of payload, at most 64, which stands before them.
    pub fn header(self, count: usize) -> [u8; 12]
        requires fits { HeadFits self }
        requires small { count ≤ 64 }
        ensures value { (payload : List ℕ) → length payload ≡ 4 * count → result ++ payload ≡ completion_bytes (completion_of self payload) }
        ensures spelled { (payload : List ℕ) → length payload ≡ 4 * count → Spells (result ++ payload) (completion_of self payload) }
    {
        header_bytes(self, count)
    }
}

/// The place of the first enabled byte of a DW, 0 where none is.
fn first_place(field: u8) -> u8
    ensures { result ≡ first_place field }
{
    if is_set(field, 0) {
        0
    } else if is_set(field, 1) {
        1
    } else if is_set(field, 2) {
        2
    } else if is_set(field, 3) {
        3
    } else {
        0
    }
}

/// How many bytes of a DW lie up to the last enabled one.
fn last_end(field: u8) -> u8
    ensures { result ≡ last_end field }
{
    if is_set(field, 3) {
        4
    } else if is_set(field, 2) {
        3
    } else if is_set(field, 1) {
        2
    } else if is_set(field, 0) {
        1
    } else {
        0
    }
}

/// From the first enabled byte of so many DW to the last; 1 for a read of no bytes.
fn byte_count(enables: Enables, count: u16) -> u16
    requires low { 0 < count }
    requires high { count < 1024 }
    ensures value { result ≡ byte_count enables count }
    ensures small { result < 2 ^ 12 }
{
    let first = u16::from(first_place(enables.first));
    if count != 1 {
        let end = 4 * (count - 1) + u16::from(last_end(enables.last));
        end.saturating_sub(first)
    } else if enables.first == 0 {
        1
    } else {
        u16::from(last_end(enables.first)).saturating_sub(first)
    }
}

/// The low bits of the first enabled byte's address.
fn lower_address(enables: Enables, address: u64) -> u8
    ensures value { result ≡ lower_address enables address }
    ensures small { result < 2 ^ 7 }
{
    (address / 4 * 4 % 128) as u8 + first_place(enables.first)
}

/// A completion that is being made, without memory of its own.
/// It has at most 64 DW of payload. A contract sees the packet.
#[derive(Drop)]
pub struct CplBuf {
    cells: Cells,
    head: CompletionHead,
    // how many bytes of payload
    len: usize,
}

impl Model for CplBuf {
    ghost use Rattle.std.specs.Prelude.{◌/◌, take, drop};
    ghost use Rattle.tlp_view.specs.Packet.{Packet};

    ghost Value = { Packet };

    ghost use Rattle.tlp_view.specs.Completions.{completion};
    ghost use Rattle.tlp_view.specs.Buffer.{IsBuffer};

    ghost view = { λ c. completion c.head (c.len / 4) (take c.len (drop 12 c.cells.xs)) };

    ghost invariant = { λ c. IsBuffer c.head c.len c.cells.xs };
}

impl CplBuf {
    ghost use Rattle.std.specs.Borrow.{sem};
    ghost use Rattle.tlp_view.specs.Completions.{completion_of, completion_bytes};
    ghost use Rattle.tlp_view.specs.Spelling.{Spells};
    ghost use Rattle.tlp_view.specs.LentPayload.{LendsPayload};

    /// A completion with `length` DW of payload, all 0. It is a `CplD` if it has any, or else a `Cpl`.
    pub fn new(head: CompletionHead, length: usize) -> CplBuf
        requires fits { HeadFits head }
        requires small { length ≤ 64 }
        ensures { result ≡ completion_of head (replicate (4 * length) 0) }
    {
        let kept = head;
        let cells = first_cells(head, length);
        CplBuf {
            cells,
            head: kept,
            len: 4 * length,
        }
    }

    /// The payload, for writing.
    pub fn payload_mut(&mut self) -> &mut [u8]
        ensures* writes_back { sem 𝓛 (LendsPayload self.entry result) }
        ensures value { result.now ≡ self.old.payload }
    {
        self.cells.part_mut(12 + self.len)
    }

    /// The bytes of the whole packet, which are read back as this packet.
    pub fn bytes(&self) -> &[u8]
        ensures spelled { Spells result.now self.now }
        ensures value { result.now ≡ completion_bytes self.now }
        ensures short { length result.now ≤ 268 }
    {
        &self.cells.xs[..12 + self.len]
    }
}

/// The header of a completion with `length` DW of payload, and 0 in the bytes after it.
fn first_cells(head: CompletionHead, length: usize) -> Cells
    requires fits { HeadFits head }
    requires small { length ≤ 64 }
    ensures value { result.xs ≡ header (completion head length []) [] ++ replicate 256 0 }
    ensures completer { head.completer < 2 ^ 16 }
    ensures requester { head.requester < 2 ^ 16 }
{
    let header = header_bytes(head, length);
    Cells {
        xs: with_header(&header),
    }
}

/// The header, and 0 in the bytes after it.
fn with_header(header: &[u8; 12]) -> [u8; 268]
    ensures { result ≡ header.now ++ replicate 256 0 }
{
    let mut bytes = [0; 268];
    bytes[..12].copy_from_slice(header);
    bytes
}

/// A number of 16 bits, the high byte first.
pub(crate) fn be_u16(n: u16) -> [u8; 2]
    ensures { result ≡ be_u16 n }
{
    let mut bytes = [0; 2];
    BigEndian::write_u16(&mut bytes, n);
    bytes
}

/// The header of a completion with `length` DW of payload.
fn header_bytes(head: CompletionHead, length: usize) -> [u8; 12]
    requires fits { HeadFits head }
    requires small { length ≤ 64 }
    ensures value { result ≡ header (completion head length []) [] }
    ensures completer { head.completer < 2 ^ 16 }
    ensures requester { head.requester < 2 ^ 16 }
{
    let (completer, requester) = (be_u16(head.completer.bits()), be_u16(head.requester.bits()));
    let count = be_u16(head.byte_count);
    [
        if length == 0 { 0x0a } else { 0x4a },
        4 * u8::from(head.attributes.id_based_ordering),
        32 * u8::from(head.attributes.relaxed_ordering) + 16 * u8::from(head.attributes.no_snoop),
        length as u8,
        completer[0],
        completer[1],
        32 * status_code(head.status) + count[0],
        count[1],
        requester[0],
        requester[1],
        head.tag,
        head.lower_address,
    ]
}

/// The three bits of a status.
fn status_code(status: Status) -> u8
    ensures { result ≡ status_bits status }
{
    match status {
        Status::SC => 0,
        Status::UR => 1,
        Status::CRS => 2,
        Status::CA => 4,
    }
}
