//! Memory requests (PCIe 4.0, 2.2.7).

ghost use Rattle.std.specs.Prelude.{true, false, ◌≡◌, ◌+◌, ◌<◌, ◌≤◌, ◌*◌, ◌/◌, ◌%◌, ◌^◌, [], ◌∷◌, ◌++◌, length, take, replicate, if◌then◌else◌};
ghost use Rattle.tlp_view.specs.Kinds.{type_of, has_data};
ghost use Rattle.tlp_view.specs.Spelling.{be_u16, flag, header, address_bytes, address_type_bits};
ghost use Rattle.tlp_view.specs.Requests.{is_high, request, packet_bytes, RequestFits};

use crate::attributes::Attributes;
use crate::completion::be_u16;
use crate::enables::Enables;
use crate::kind::Kind;
use crate::view::TlpView;
use arrayvec::ArrayVec;
use byteorder::{BigEndian, ByteOrder};
use fab_types::{AddressType, Bdf};
use std::marker::Model;

/// The header fields of a memory request, but its Length (PCIe 4.0, 2.2.7).
#[derive(Clone, Copy, Debug, PartialEq, Eq)]
pub struct RequestHead {
    /// Requester ID: who asks.
    pub requester: Bdf,
    /// The Tag.
    pub tag: u8,
    /// First and Last DW Byte Enables.
    pub enables: Enables,
    /// The address in bytes, a multiple of 4. From 4 GB on the header has 4 DW.
    pub address: u64,
    /// The AT field.
    pub address_type: AddressType,
    /// The Attr field.
    pub attributes: Attributes,
}

/// A memory request that was made, without memory of its own.
/// It is at most 272 bytes long. A contract sees the packet.
#[derive(Drop)]
pub struct RequestBuf {
    packet: ArrayVec<u8, 272>,
}

impl Model for RequestBuf {
    ghost use Rattle.tlp_view.specs.Packet.{Packet};

    ghost Value = { Packet };

    ghost use Rattle.tlp_view.specs.Bytes.{packet_of};
    ghost use Rattle.tlp_view.specs.RequestBuffer.{IsRequestBuffer};

    ghost view = { λ b. packet_of b.packet.items };

    ghost invariant = { λ b. IsRequestBuffer b.packet.items };
}

impl RequestBuf {
    ghost use Rattle.tlp_view.specs.Spelling.{Spells};
    ghost use Rattle.tlp_view.specs.Kinds.{is_memory};
    ghost use Rattle.tlp_view.specs.Requests.{moved, read_request, write_request, IsSamePlace};
    ghost use Rattle.tlp_view.specs.RequestBuffer.{IsMade};

    /// A read of `length` DW, 1 to 1,024.
    pub fn read(head: RequestHead, length: u16) -> RequestBuf
        requires { RequestFits head length }
        ensures { result ≡ read_request head length }
    {
        RequestBuf::made(Kind::MRd, head, length, &[])
    }

    /// A write of these bytes, 1 to 64 DW.
    pub fn write(head: RequestHead, payload: &[u8]) -> RequestBuf
        requires fits { RequestFits head (length payload.now / 4) }
        requires small { length payload.now ≤ 256 }
        requires whole { length payload.now % 4 ≡ 0 }
        ensures { result ≡ write_request head payload.now }
    {
        RequestBuf::made(Kind::MWr, head, (payload.len() / 4) as u16, payload)
    }

    /// The same memory request at another address, with the same place in its 4,096 bytes.
    pub fn moved(request: &TlpView, address: u64) -> RequestBuf
        requires memory { is_memory (request.now).kind ≡ true }
        requires place { IsSamePlace request.now address }
        ensures { result ≡ moved request.now address }
    {
        let length = request.dw_length();
        let head = request.head_at(address);
        RequestBuf::made(request.kind(), head, length, request.payload())
    }

    fn made(kind: Kind, head: RequestHead, length: u16, payload: &[u8]) -> RequestBuf
        requires kind { IsMade kind length payload.now }
        requires fits { RequestFits head length }
        ensures { result ≡ request kind head length payload.now }
    {
        let address = head.address;
        let front = front_bytes(kind, head, length);
        let mut packet = ArrayVec::new();
        append(&mut packet, &front);
        append_address(&mut packet, address);
        append(&mut packet, payload);
        RequestBuf { packet }
    }

    /// The bytes of the whole packet, which are read back as this packet.
    pub fn bytes(&self) -> &[u8]
        ensures spelled { Spells result.now self.now }
        ensures value { result.now ≡ packet_bytes self.now }
        ensures small { length result.now ≤ 272 }
    {
        self.packet.as_slice()
    }
}

/// Puts a part behind what stands there.
fn append(packet: &mut ArrayVec<u8, 272>, part: &[u8])
    requires { length packet.old.items + length part.now ≤ 272 }
    ensures value { packet.new.items ≡ packet.old.items ++ part.now }
    ensures len { length packet.new.items ≡ length packet.old.items + length part.now }
{
    if packet.try_extend_from_slice(part).is_err() {
        unreachable!();
    }
}

/// Puts an address there, of one DW below 4 GB and of two from there on.
fn append_address(packet: &mut ArrayVec<u8, 272>, address: u64)
    requires { length packet.old.items + 8 ≤ 272 }
    ensures value { packet.new.items ≡ packet.old.items ++ address_bytes (is_high address) address }
    ensures len { length packet.new.items ≡ length packet.old.items + (if is_high address then 8 else 4) }
    ensures small { address < 2 ^ 64 }
{
    if address < 1 << 32 {
        append(packet, &low_address(address as u32));
    } else {
        append(packet, &high_address(address));
    }
}

/// An address below 4 GB, the high byte first.
fn low_address(address: u32) -> [u8; 4]
    ensures { result ≡ address_bytes false address }
{
    let mut bytes = [0; 4];
    BigEndian::write_u32(&mut bytes, address);
    bytes
}

/// An address, the high byte first.
fn high_address(address: u64) -> [u8; 8]
    ensures { result ≡ address_bytes true address }
{
    let mut bytes = [0; 8];
    BigEndian::write_u64(&mut bytes, address);
    bytes
}

/// The header up to its address.
fn front_bytes(kind: Kind, head: RequestHead, length: u16) -> [u8; 8]
    requires kind { type_of kind 0 ≡ 0 }
    requires first { head.enables.first < 16 }
    requires last { head.enables.last < 16 }
    ensures value { result ≡ take 8 (header (request kind head length []) []) }
    ensures requester { head.requester < 2 ^ 16 }
    ensures tag { head.tag < 2 ^ 8 }
{
    let requester = be_u16(head.requester.bits());
    let count = be_u16(length % 1024);
    let has_4dw_header = head.address >= 1 << 32;
    [
        64 * u8::from(kind.has_data()) + 32 * u8::from(has_4dw_header),
        4 * u8::from(head.attributes.id_based_ordering),
        32 * u8::from(head.attributes.relaxed_ordering)
            + 16 * u8::from(head.attributes.no_snoop)
            + 4 * address_type_code(head.address_type)
            + count[0],
        count[1],
        requester[0],
        requester[1],
        head.tag,
        16 * head.enables.last + head.enables.first,
    ]
}

/// The two bits of AT.
fn address_type_code(address_type: AddressType) -> u8
    ensures value { result ≡ address_type_bits address_type }
    ensures small { result < 4 }
{
    match address_type {
        AddressType::Untranslated => 0,
        AddressType::TranslationRequest => 1,
        AddressType::Translated => 2,
        AddressType::Reserved => 3,
    }
}
