//! The fields of a header, taken from its bytes (PCIe 4.0, 2.2.1 to 2.2.9).

ghost use Rattle.std.specs.Prelude.{◌≡◌, ◌+◌, ◌<◌, ◌≤◌, length, ◌^◌};
ghost use Rattle.tlp_view.specs.Bytes.{HasHeader, is_set, has_4dw_header_at, length_at, address_at, enables_at, attributes_at, address_type_of, status_of, be_u16_at};
ghost use Rattle.tlp_view.specs.Packet.{dw_count};

use crate::attributes::Attributes;
use crate::enables::Enables;
use fab_types::{AddressType, Status};

/// Is this bit of the byte set?
pub(crate) fn is_set(byte: u8, bit: u32) -> bool
    requires { bit < 8 }
    ensures { result ≡ is_set byte bit }
{
    (byte >> bit) % 2 == 1
}

/// Has the header 4 DW? It has 3 otherwise.
pub(crate) fn has_4dw_header(bytes: &[u8]) -> bool
    requires { 12 ≤ length bytes.now }
    ensures { result ≡ has_4dw_header_at bytes.now }
{
    is_set(bytes[0], 5)
}

/// The Length field, in which 0 stands for 1,024 DW.
pub(crate) fn length_field(bytes: &[u8]) -> u16
    requires { 12 ≤ length bytes.now }
    ensures value { result ≡ length_at bytes.now }
    ensures small { result < 2 ^ 10 }
{
    u16::from_be_bytes([bytes[2] % 4, bytes[3]])
}

/// A Length in DW.
pub(crate) fn dw_count(length: u16) -> u16
    ensures { result ≡ dw_count length }
{
    if length == 0 { 1024 } else { length }
}

/// The 16 bits at this place.
pub(crate) fn be_u16(bytes: &[u8], i: usize) -> u16
    requires { i + 2 ≤ length bytes.now }
    ensures { result ≡ be_u16_at bytes.now i }
{
    u16::from_be_bytes([bytes[i], bytes[i + 1]])
}

pub(crate) fn attributes(bytes: &[u8]) -> Attributes
    requires { 12 ≤ length bytes.now }
    ensures { result ≡ attributes_at bytes.now }
{
    Attributes {
        id_based_ordering: is_set(bytes[1], 2),
        relaxed_ordering: is_set(bytes[2], 5),
        no_snoop: is_set(bytes[2], 4),
    }
}

/// The AT field of these two bits.
pub(crate) fn address_type(field: u8) -> AddressType
    ensures { result ≡ address_type_of field }
{
    if field == 0 {
        AddressType::Untranslated
    } else if field == 1 {
        AddressType::TranslationRequest
    } else if field == 2 {
        AddressType::Translated
    } else {
        AddressType::Reserved
    }
}

pub(crate) fn enables(bytes: &[u8]) -> Enables
    requires { 12 ≤ length bytes.now }
    ensures value { result ≡ enables_at bytes.now }
    ensures last { result.last < 16 }
{
    Enables {
        first: bytes[7] % 16,
        last: bytes[7] / 16,
    }
}

/// The address of a memory request or a FetchAdd, in bytes.
#[tactic(auto, unfolding(crate::specs::Bytes::address_at))]
pub(crate) fn address(bytes: &[u8]) -> u64
    requires { HasHeader bytes.now }
    ensures { result ≡ address_at bytes.now }
{
    if has_4dw_header(bytes) {
        u64::from_be_bytes([
            bytes[8], bytes[9], bytes[10], bytes[11], bytes[12], bytes[13], bytes[14], bytes[15],
        ])
    } else {
        u64::from(u32::from_be_bytes([bytes[8], bytes[9], bytes[10], bytes[11]]))
    }
}

/// The status of these three bits, if they are one's.
pub(crate) fn status(field: u8) -> Option<Status>
    ensures { result ≡ status_of field }
{
    if field == 0 {
        Some(Status::SC)
    } else if field == 1 {
        Some(Status::UR)
    } else if field == 2 {
        Some(Status::CRS)
    } else if field == 4 {
        Some(Status::CA)
    } else {
        None
    }
}
