//! The ACS Extended Capability as bytes.

ghost use Rattle.std.specs.Prelude.{◌≡◌};
ghost use Rattle.byteorder.specs.Endian.{little_bytes};
ghost use Rattle.acs.specs.Block.{block_bytes, egress_block_bytes};

use bitflags::Flags;
use byteorder::{ByteOrder, LittleEndian};
use fab_types::AcsControl;
use std::marker::Model;

// ACS Extended Capability Header, offset 00h (PCIe 4.0, 7.7.8.1): PCI Express Extended Capability ID
// in bits 15:0, Capability Version in bits 19:16, Next Capability Offset in bits 31:20.
const EXTENDED_CAPABILITY_ID: u32 = 0x000d;

const CAPABILITY_VERSION: u32 = 1;

const NEXT_CAPABILITY_OFFSET: u32 = 0;

// ACS Capability Register, offset 04h (PCIe 4.0, 7.7.8.2). Its low bits and those of the ACS Control
// Register, offset 06h (PCIe 4.0, 7.7.8.3), stand for the same controls.
const ACS_SOURCE_VALIDATION: u16 = 0x0001;

const ACS_TRANSLATION_BLOCKING: u16 = 0x0002;

const ACS_P2P_REQUEST_REDIRECT: u16 = 0x0004;

const ACS_P2P_COMPLETION_REDIRECT: u16 = 0x0008;

const ACS_UPSTREAM_FORWARDING: u16 = 0x0010;

const ACS_P2P_EGRESS_CONTROL: u16 = 0x0020;

// Egress Control Vector Size, bits 15:8: 32 bits.
const EGRESS_CONTROL_VECTOR_SIZE: u16 = 0x2000;

// The controls that a port without egress control has. ACS Direct Translated P2P (0040h) reads 0 here.
// Ports of real switches have it, and show 5fh.
const ACS_CAPABILITY: u16 = ACS_SOURCE_VALIDATION
    | ACS_TRANSLATION_BLOCKING
    | ACS_P2P_REQUEST_REDIRECT
    | ACS_P2P_COMPLETION_REDIRECT
    | ACS_UPSTREAM_FORWARDING;

const ACS_CAPABILITY_WITH_EGRESS: u16 = ACS_CAPABILITY
    | ACS_P2P_EGRESS_CONTROL
    | EGRESS_CONTROL_VECTOR_SIZE;

/// The ACS Extended Capability of a downstream port (PCIe 4.0, 7.7.8).
/// It is the last one of the port's list. A contract sees the controls that are set.
///
/// Direct Translated P2P is left out: the capability register is 1Fh, where that of a real downstream port,
/// which has it, is 5Fh.
#[derive(Clone, Copy, Debug, PartialEq, Eq)]
pub struct AcsBlock {
    control: AcsControl,
}

impl Model for AcsBlock {
    ghost use Rattle.fab_types.specs.declared.controls.AcsControl.{AcsControl};

    ghost Value = { AcsControl };

    ghost view = { λ b. b.control };

    ghost inverse = { λ c. record { control = c } };
}

fn long(number: u32) -> [u8; 4]
    ensures { result ≡ little_bytes 4 number }
{
    let mut bytes = [0; 4];
    LittleEndian::write_u32(&mut bytes, number);
    bytes
}

fn word(number: u16) -> [u8; 2]
    ensures { result ≡ little_bytes 2 number }
{
    let mut bytes = [0; 2];
    LittleEndian::write_u16(&mut bytes, number);
    bytes
}

impl AcsBlock {
    /// The block of a port with these controls set.
    pub fn new(control: AcsControl) -> AcsBlock
        ensures { result ≡ control }
    {
        AcsBlock { control }
    }

    /// The twelve bytes of the block of a port that controls egress (PCIe 4.0, 7.7.8.4).
    /// These are the header, the capability register, the control register and the Egress Control Vector. Each
    /// is little-endian.
    pub fn with_egress(control: AcsControl, vector: u32) -> [u8; 12]
        ensures { result ≡ egress_block_bytes control vector }
    {
        let header = long(
            EXTENDED_CAPABILITY_ID
                + CAPABILITY_VERSION * 0x1_0000
                + NEXT_CAPABILITY_OFFSET * 0x10_0000,
        );
        let capability = word(ACS_CAPABILITY_WITH_EGRESS);
        let control = word(u16::from(control.bits()));
        let vector = long(vector);
        [
            header[0],
            header[1],
            header[2],
            header[3],
            capability[0],
            capability[1],
            control[0],
            control[1],
            vector[0],
            vector[1],
            vector[2],
            vector[3],
        ]
    }

    /// The eight bytes of the block (PCIe 4.0, 7.7.8).
    /// These are the header, the capability register, and the control register, which has just the bits that
    /// the capability has. Each is little-endian.
    pub fn bytes(&self) -> [u8; 8]
        ensures { result ≡ block_bytes self.now }
    {
        let header = long(
            EXTENDED_CAPABILITY_ID
                + CAPABILITY_VERSION * 0x1_0000
                + NEXT_CAPABILITY_OFFSET * 0x10_0000,
        );
        let capability = word(ACS_CAPABILITY);
        let control = word(u16::from(self.control.bits()) & ACS_CAPABILITY);
        [
            header[0],
            header[1],
            header[2],
            header[3],
            capability[0],
            capability[1],
            control[0],
            control[1],
        ]
    }
}
