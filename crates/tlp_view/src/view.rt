//! A packet, read in place.

ghost use Rattle.std.specs.Prelude.{true, ◌≡◌, ◌^◌, ◌<◌, ◌≤◌, ◌*◌, length, ◌↔◌, take, drop, None, IsSome, IfSome, IfOk, IfErr};
ghost use Rattle.tlp_view.specs.Packet.{Packet, dw_count, address_in, enables_in, status_in, byte_count_in, lower_address_in};
ghost use Rattle.tlp_view.specs.Kinds.{class_of_kind, has_address, is_completion, is_memory};
ghost use Rattle.tlp_view.specs.Bytes.{packet_of};
ghost use Rattle.tlp_view.specs.Malformed.{malformed};
ghost use Rattle.tlp_view.specs.Spelling.{Spells};
ghost use Rattle.tlp_view.specs.View.{length_of, address_type_in, IsSound};
ghost use Rattle.tlp_view.specs.Costs.{packet_cost, cost_of};
ghost use Rattle.tlp_view.specs.Runs.{runs};

use crate::attributes::Attributes;
use crate::bits;
use crate::bits::has_4dw_header;
use crate::enables::Enables;
use crate::faults::{fault_of, is_short};
use crate::kind::Kind;
use crate::request::RequestHead;
use crate::runs::Runs;
use fab_types::{AddressType, Bdf, Class, Cost, Malformed, Status};
use std::marker::Model;

/// A well-formed packet over the bytes that it was read from, which it lends. A contract sees the
/// packet.
#[derive(Debug, Drop)]
pub struct TlpView<'a> {
    bytes: &'a [u8],
    kind: Kind,
}

impl<'a> Model for TlpView<'a> {
    ghost use Rattle.tlp_view.specs.Packet.{Packet};

    ghost Value = { Packet };

    ghost use Rattle.tlp_view.specs.Bytes.{packet_of_kind};
    ghost use Rattle.tlp_view.specs.View.{IsView};

    ghost view = { λ v. packet_of_kind v.kind v.bytes.now };

    ghost invariant = { λ v. IsView v.kind v.bytes.now };
}

impl<'a> TlpView<'a> {
    ghost use Rattle.tlp_view.specs.Requests.{moved, request, IsSamePlace, RequestFits};
    ghost use Rattle.tlp_view.specs.RequestBuffer.{IsMade};

    /// The packet that these bytes are, or the first cause that they are none.
    #[inline]
    pub fn read(bytes: &'a [u8]) -> Result<TlpView<'a>, Malformed>
        // What is read is spelled so.
        ensures found { IfOk result (λ v. Spells bytes.now v) }
        // What is spelled so is read.
        ensures only { (t : Packet) → Spells bytes.now t → result ≡ Ok t }
        // By the definitions: which packet, and which cause.
        ensures value { IfOk result (λ v. (malformed bytes.now ≡ None) × (v ≡ packet_of bytes.now)) }
        ensures cause { IfErr result (λ m. malformed bytes.now ≡ Some m) }
    {
        TlpView::parse(bytes)
    }

    #[inline]
    fn parse(bytes: &'a [u8]) -> Result<TlpView<'a>, Malformed>
        ensures value { IfOk result (λ v. (malformed bytes.now ≡ None) × (v ≡ packet_of bytes.now)) }
        ensures cause { IfErr result (λ m. malformed bytes.now ≡ Some m) }
    {
        if is_short(bytes) {
            return Err(Malformed::Short);
        }
        let Some(kind) = Kind::of(bytes[0] / 32, bytes[0] % 32) else {
            return Err(Malformed::Kind);
        };
        match fault_of(kind, bytes) {
            Some(cause) => Err(cause),
            None => Ok(TlpView { bytes, kind }),
        }
    }

    /// The packet that well-formed bytes are.
    /// Whether they are is not tested.
    #[inline]
    pub fn again(bytes: &'a [u8]) -> TlpView<'a>
        requires { malformed bytes.now ≡ None }
        ensures { result ≡ packet_of bytes.now }
    {
        match Kind::of(bytes[0] / 32, bytes[0] % 32) {
            Some(kind) => TlpView { bytes, kind },
            None => unreachable!(),
        }
    }

    /// The packet's kind (PCIe 4.0, 2.2.1).
    pub fn kind(&self) -> Kind
        ensures sound { IsSound self.now }
        ensures value { result ≡ self.now.kind }
    {
        self.kind
    }

    /// The class that decides its order and its credits.
    pub fn class(&self) -> Class
        ensures { result ≡ class_of_kind self.now.kind }
    {
        Kind::class(self.kind)
    }

    /// Requester ID: who sent the request, or to whom the completion goes.
    pub fn requester(&self) -> Bdf
        ensures { result ≡ self.now.requester }
    {
        Bdf::from_bits(if self.kind.is_completion() {
            bits::be_u16(self.bytes, 8)
        } else {
            bits::be_u16(self.bytes, 4)
        })
    }

    /// The Tag (PCIe 4.0, 2.2.6.2).
    pub fn tag(&self) -> u8
        ensures { result ≡ self.now.tag }
    {
        if self.kind.is_completion() {
            self.bytes[10]
        } else {
            self.bytes[6]
        }
    }

    /// The address of a memory read or write or a FetchAdd.
    /// It is in bytes, a multiple of 4. Other kinds have none.
    #[tactic(auto, using(crate::proofs::Bodies::address_of_body))]
    pub fn address(&self) -> Option<u64>
        ensures value { result ≡ address_in self.now.body }
        ensures known { has_address (self.now).kind ≡ true → IsSome result }
    {
        if self.kind.has_address() {
            Some(bits::address(self.bytes))
        } else {
            None
        }
    }

    /// The AT field of a memory read or write or a FetchAdd (PCIe 4.0, 10.2.1).
    /// It says whether the address is translated. Other kinds have none.
    pub fn at(&self) -> Option<AddressType>
        ensures { result ≡ address_type_in self.now }
    {
        if self.kind.has_address() {
            Some(bits::address_type(self.bytes[2] / 4 % 4))
        } else {
            None
        }
    }

    /// The Attr field (PCIe 4.0, 2.2.6.3).
    pub fn attr(&self) -> Attributes
        ensures { result ≡ self.now.attributes }
    {
        bits::attributes(self.bytes)
    }

    /// Of a memory read or write: its byte enables.
    #[tactic(auto, using(crate::proofs::Bodies::enables_of_body))]
    pub fn enables(&self) -> Option<Enables>
        ensures value { result ≡ enables_in self.now.body }
        ensures known { is_memory (self.now).kind ≡ true → IsSome result }
    {
        if self.kind.is_memory() {
            Some(bits::enables(self.bytes))
        } else {
            None
        }
    }

    /// Length in DW, 1 to 1,024, of the data carried or asked for.
    /// Messages and completions without data have none.
    pub fn length(&self) -> Option<u16>
        ensures { result ≡ length_of self.now }
    {
        match self.kind {
            Kind::Msg | Kind::Cpl | Kind::CplLk => None,
            _ => Some(bits::dw_count(bits::length_field(self.bytes))),
        }
    }

    /// The Length field in DW, in which 0 stands for 1,024. Where the kind has no Length it is what stands
    /// in the field's place.
    pub fn dw_length(&self) -> u16
        ensures sound { IsSound self.now }
        ensures value { result ≡ dw_count self.now.length }
        ensures some { 0 < result }
        ensures field { (self.now).length < 2 ^ 10 }
    {
        bits::dw_count(bits::length_field(self.bytes))
    }

    /// The fields of the same memory request at another address, with the same place in 4,096 bytes.
    pub(crate) fn head_at(&self, address: u64) -> RequestHead
        requires memory { is_memory (self.now).kind ≡ true }
        requires place { IsSamePlace self.now address }
        requires field { (self.now).length < 2 ^ 10 }
        ensures fits { RequestFits result (dw_count (self.now).length) }
        ensures made { IsMade (self.now).kind (dw_count (self.now).length) (self.now).payload }
        ensures value { request (self.now).kind result (dw_count (self.now).length) (self.now).payload ≡ moved self.now address }
    {
        RequestHead {
            requester: self.requester(),
            tag: self.tag(),
            enables: bits::enables(self.bytes),
            address,
            address_type: bits::address_type(self.bytes[2] / 4 % 4),
            attributes: self.attr(),
        }
    }

    /// The status of a completion (PCIe 4.0, 2.2.9).
    /// Other kinds have none.
    pub fn status(&self) -> Option<Status>
        ensures value { result ≡ status_in self.now.body }
        ensures known { is_completion (self.now).kind ≡ true → IsSome result }
    {
        if self.kind.is_completion() {
            bits::status(self.bytes[6] / 32)
        } else {
            None
        }
    }

    /// Byte Count of a completion, 12 bits (PCIe 4.0, 2.2.9).
    #[tactic(auto, using(crate::proofs::Bodies::byte_count_of_body))]
    pub fn byte_count(&self) -> Option<u16>
        ensures { result ≡ byte_count_in self.now.body }
    {
        if self.kind.is_completion() {
            Some(u16::from_be_bytes([self.bytes[6] % 16, self.bytes[7]]))
        } else {
            None
        }
    }

    /// Lower Address of a completion, 7 bits (PCIe 4.0, 2.2.9).
    #[tactic(auto, using(crate::proofs::Bodies::lower_address_of_body))]
    pub fn lower_address(&self) -> Option<u8>
        ensures { result ≡ lower_address_in self.now.body }
    {
        if self.kind.is_completion() {
            Some(self.bytes[11] % 128)
        } else {
            None
        }
    }

    /// The data after the header.
    pub fn payload(&self) -> &'a [u8]
        ensures sound { IsSound self.now }
        ensures value { result.now ≡ self.now.payload }
    {
        let header = if has_4dw_header(self.bytes) { 16 } else { 12 };
        &self.bytes[header..]
    }

    /// What it costs in flow control credits.
    pub fn cost(&self) -> Cost
        ensures { result ≡ packet_cost self.now }
    {
        let Some(cost) = Cost::of_payload(self.kind.class(), self.payload().len()) else {
            unreachable!();
        };
        cost
    }

    /// The payload before DW `n` and from it on. None where the payload has fewer DWs.
    pub fn split_at_dword(&self, n: usize) -> Option<(&'a [u8], &'a [u8])>
        ensures found { IsSome result ↔ (4 * n ≤ length self.now.payload) }
        ensures before { IfSome result (λ parts. parts.0.now ≡ take (4 * n) self.now.payload) }
        ensures after { IfSome result (λ parts. parts.1.now ≡ drop (4 * n) self.now.payload) }
    {
        let payload = self.payload();
        if payload.len() / 4 < n {
            return None;
        }
        Some(payload.split_at(4 * n))
    }

    /// The runs of enabled bytes of a memory write.
    /// Each is a longest one, with its offset in bytes from the address, rising. Other kinds have none.
    pub fn runs(&self) -> Runs<'a>
        ensures { result ≡ runs self.now }
    {
        let enables = bits::enables(self.bytes);
        match self.kind {
            Kind::MWr => Runs::new(self.payload(), enables),
            _ => Runs::new(&[], enables),
        }
    }
}

/// What bytes cost in flow control credits. Malformed ones travel as a posted packet with no data,
/// which is this project's own rule.
pub fn cost(bytes: &[u8]) -> Cost
    ensures { result ≡ cost_of bytes.now }
{
    match TlpView::read(bytes) {
        Ok(packet) => packet.cost(),
        Err(_) => Cost::without_data(Class::Posted),
    }
}
