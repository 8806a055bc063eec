//! A packet that harms, and how.

ghost use Rattle.std.specs.Prelude.{◌≡◌, IfOk};
ghost use Rattle.tlp_view.specs.Requests.{packet_bytes};
ghost use Rattle.attacks.specs.Packets.{address_of, head_of, own_read, packet_of, payload};

use crate::own_read::OwnRead;
use crate::packet::{head_at, start_of};
use fab_types::{AddressType, Bdf, Control, NoMemory, PacketBytes, PortId};
use std::alloc::Global;
use tlp_view::{RequestBuf, RequestHead};

/// Where a register page has its buffer, which takes any bytes.
const BUFFER: u64 = 0x400;

/// What a write writes.
const PAYLOAD: [u8; 4] = [0xde, 0xad, 0xbe, 0xef];

/// A way in which a domain harms another, the worst first.
#[derive(Clone, Copy, Debug, PartialEq, Eq)]
pub enum Way {
    /// A frame of memory is written.
    FrameWritten,
    /// A frame of memory is read, and the attacker gets the data.
    FrameRead,
    /// A register page is written.
    RegistersWritten,
    /// A register page is read, and the attacker gets the data.
    RegistersRead,
    /// A read of the other's own is closed by the completion of another read.
    TagClosed,
    /// A completion comes that the other didn't ask for.
    Completion,
    /// The other's counts change.
    Counts,
    /// A read that the harmed domain's function submits is answered by the other.
    AnswersReads,
}

/// What is harmed, and how.
#[derive(Clone, Copy, Debug, PartialEq, Eq)]
pub enum Harm {
    /// The frame of memory of this number is written.
    FrameWritten(u16),
    /// That frame is read, and the attacker gets the data.
    FrameRead(u16),
    /// The register page of this function is written.
    RegistersWritten(Bdf),
    /// That page is read, and the attacker gets the data.
    RegistersRead(Bdf),
    /// This read of the other's own is closed by the completion of another read.
    TagClosed(OwnRead),
    /// A completion comes that the other didn't ask for.
    Completion,
    /// The other's counts change.
    Counts,
    /// A read of this frame of the other, by its own address, is answered.
    AnswersFrame(u16),
    /// A read of the page of this function of the other, past the host, is answered.
    AnswersRegisters(Bdf),
}

/// What a request does with a page.
#[derive(Clone, Copy, Debug, PartialEq, Eq)]
pub enum Access {
    /// It reads 1 DW.
    Read,
    /// It writes 1 DW.
    Write,
}

/// A request that a function may submit, and by which a domain is harmed.
#[derive(Clone, Copy, Debug, PartialEq, Eq)]
pub struct Attack {
    /// The function that submits it. Where a read is answered it is the harmed domain's, or else the other's.
    pub function: Bdf,
    /// What it harms.
    pub harm: Harm,
    /// The port that would stop it.
    pub port: PortId,
    /// The control by which that port would stop it.
    pub control: Control,
    /// Whether it reads or writes.
    pub access: Access,
    /// Does it claim that its address is translated?
    pub is_translated: bool,
    /// The Requester ID that it bears.
    pub requester: Bdf,
    /// The page that it is for, a number of 52 bits.
    pub page: u64,
}

/// The address of a page, and there of the buffer that a register page has.
fn address_of(page: u64, harm: &Harm) -> u64
    ensures { result ≡ address_of page harm.now }
{
    let start = start_of(page);
    match harm {
        Harm::RegistersWritten(_) | Harm::RegistersRead(_) | Harm::AnswersRegisters(_) => {
            start + BUFFER
        }
        Harm::FrameWritten(_)
        | Harm::FrameRead(_)
        | Harm::TagClosed(_)
        | Harm::Completion
        | Harm::Counts
        | Harm::AnswersFrame(_) => start,
    }
}

fn head_of(attack: &Attack) -> RequestHead
    ensures { result ≡ head_of attack.now }
{
    let address_type = if attack.is_translated {
        AddressType::Translated
    } else {
        AddressType::Untranslated
    };
    let address = address_of(attack.page, &attack.harm);
    head_at(attack.requester, address, address_type)
}

impl Harm {
    /// The harmed domain's own read that is closed, if that is the harm.
    pub fn own_read(&self) -> Option<OwnRead>
        ensures { result ≡ own_read self.now }
    {
        match self {
            Harm::TagClosed(read) => Some(*read),
            _ => None,
        }
    }
}

impl Attack {
    /// The bytes of the request (PCIe 4.0, 2.2.7).
    /// It is of 1 DW, all bytes enabled, with Tag 0, for the first DW of the page, or of a register page's buffer.
    pub fn bytes(&self, alloc: Global) -> Result<PacketBytes, NoMemory>
        ensures { IfOk result (λ bytes. bytes ≡ packet_bytes (packet_of self.now)) }
    {
        let head = head_of(self);
        let request = match self.access {
            Access::Read => RequestBuf::read(head, 1),
            Access::Write => RequestBuf::write(head, &PAYLOAD),
        };
        PacketBytes::copy_of(alloc, request.bytes())
    }
}
