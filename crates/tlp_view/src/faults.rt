//! Whether bytes are a well-formed packet. The conditions and their order are this project's own,
//! after PCIe 4.0, 2.2.1 to 2.2.9.

ghost use Rattle.std.specs.Prelude.{◌≡◌, ◌<◌, ◌≤◌, length};
ghost use Rattle.tlp_view.specs.Bytes.{HasHeader};
ghost use Rattle.tlp_view.specs.Malformed.{is_short, data_len, has_bad_length, has_bad_size, unit_of, reaches_end, begins_at_start, has_bad_enables, crosses, has_bad_common, has_bad_field, malformed_of_kind};

use crate::bits::{address, dw_count, has_4dw_header, is_set, length_field, status};
use crate::kind::Kind;
use fab_types::Malformed;

/// Do the bytes end before the header does?
pub(crate) fn is_short(bytes: &[u8]) -> bool
    ensures { result ≡ is_short bytes.now }
{
    bytes.len() < 12 || (bytes.len() < 16 && has_4dw_header(bytes))
}

/// The bytes of payload that Length calls for.
fn data_len(kind: Kind, bytes: &[u8]) -> usize
    requires { 12 ≤ length bytes.now }
    ensures { result ≡ data_len kind bytes.now }
{
    if kind.has_data() {
        4 * dw_count(length_field(bytes)) as usize
    } else {
        0
    }
}

/// Is it a Length that the kind hasn't?
fn has_bad_length(kind: Kind, length: u16) -> bool
    ensures { result ≡ has_bad_length kind length }
{
    (kind.is_one_dw() && length != 1) || (kind.is_fetch_add() && length != 1 && length != 2)
}

#[tactic(auto, unfolding(crate::specs::Malformed::has_bad_size))]
fn has_bad_size(kind: Kind, bytes: &[u8]) -> bool
    requires { 12 ≤ length bytes.now }
    ensures { result ≡ has_bad_size kind bytes.now }
{
    let header = if has_4dw_header(bytes) { 16 } else { 12 };
    let data = data_len(kind, bytes);
    bytes.len() != header + data || 256 < data || has_bad_length(kind, length_field(bytes))
}

/// Do the enables begin somewhere in a DW and go on to its end?
fn reaches_end(field: u8) -> bool
    ensures { result ≡ reaches_end field }
{
    field == 15 || field == 14 || field == 12 || field == 8
}

/// Do the enables begin with a DW?
fn begins_at_start(field: u8) -> bool
    ensures { result ≡ begins_at_start field }
{
    field == 15 || field == 7 || field == 3 || field == 1
}

/// PCIe 4.0, 2.2.5: `count` is in DW.
#[tactic(auto, unfolding(crate::specs::Malformed::has_bad_enables))]
fn has_bad_enables(count: u16, address: u64, first: u8, last: u8) -> bool
    ensures { result ≡ has_bad_enables count address first last }
{
    (count == 1 && last != 0)
        || (1 < count && (first == 0 || last == 0))
        || ((2 < count || (count == 2 && address % 8 != 0))
            && !(reaches_end(first) && begins_at_start(last)))
}

/// Does a request leave its 4,096 bytes (PCIe 4.0, 2.2.7)?
#[tactic(auto, unfolding(crate::specs::Malformed::crosses))]
fn crosses(count: u16, address: u64) -> bool
    ensures { result ≡ crosses count address }
{
    4096 < address / 4 * 4 % 4096 + 4 * u64::from(count)
}

/// Is a field of bytes 1 and 2 set that has to be 0 here: T9, TC, T8, LN, TH, TD or EP?
#[tactic(auto, unfolding(crate::specs::Malformed::has_bad_common))]
fn has_bad_common(bytes: &[u8]) -> bool
    requires { 12 ≤ length bytes.now }
    ensures { result ≡ has_bad_common bytes.now }
{
    is_set(bytes[1], 7)
        || bytes[1] / 16 % 8 != 0
        || is_set(bytes[1], 3)
        || is_set(bytes[1], 1)
        || is_set(bytes[1], 0)
        || is_set(bytes[2], 7)
        || is_set(bytes[2], 6)
}

/// What an address is a multiple of, in bytes.
fn unit_of(kind: Kind, length: u16) -> u64
    ensures value { result ≡ unit_of kind length }
    ensures some { 0 < result }
{
    if kind.is_fetch_add() && length == 2 {
        8
    } else {
        4
    }
}

#[tactic(auto, unfolding(crate::specs::Malformed::has_bad_field))]
fn has_bad_field(kind: Kind, bytes: &[u8]) -> bool
    requires { HasHeader bytes.now }
    ensures { result ≡ has_bad_field kind bytes.now }
{
    has_bad_common(bytes)
        || (kind.has_address() && address(bytes) % unit_of(kind, length_field(bytes)) != 0)
        || (kind.is_completion() && (is_set(bytes[6], 4) || status(bytes[6] / 32).is_none()))
}

/// What is wrong with the bytes of this kind, if anything: the first cause that applies.
#[tactic(auto, unfolding(crate::specs::Malformed::malformed_of_kind))]
pub(crate) fn fault_of(kind: Kind, bytes: &[u8]) -> Option<Malformed>
    requires { HasHeader bytes.now }
    ensures { result ≡ malformed_of_kind kind bytes.now }
{
    if has_bad_size(kind, bytes) {
        return Some(Malformed::Size);
    }
    if kind.is_memory() {
        let (count, address) = (dw_count(length_field(bytes)), address(bytes));
        if has_bad_enables(count, address, bytes[7] % 16, bytes[7] / 16) {
            return Some(Malformed::Enables);
        }
        if crosses(count, address) {
            return Some(Malformed::Crosses);
        }
    }
    if kind.has_address() && has_4dw_header(bytes) && address(bytes) < 0x1_0000_0000 {
        return Some(Malformed::HighForm);
    }
    if has_bad_field(kind, bytes) {
        Some(Malformed::Field)
    } else {
        None
    }
}
