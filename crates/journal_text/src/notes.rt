//! Comments on the packets that entries made.

ghost use Rattle.std.specs.Prelude.{◌≡◌, OnOk};
ghost use Rattle.std.specs.Io.KnownBytes.{Appends};
ghost use Rattle.tlp_view.specs.Bytes.{packet_of};
ghost use Rattle.tlp_view.specs.Malformed.{malformed};
ghost use Rattle.tlp_view.specs.Packet.{address_in, status_in};
ghost use Rattle.journal_text.specs.Notes.{bytes_are, end_text, kind_name, note_line, packet_head, packet_text};

use fab_types::Status;
use reports::status_name;
use std::io;
use std::io::Write;
use tlp_view::{Kind, TlpView};

fn kind_name(kind: Kind) -> &'static str
    ensures { result.now ≡ kind_name kind }
{
    match kind {
        Kind::MRd => "MRd",
        Kind::MRdLk => "MRdLk",
        Kind::MWr => "MWr",
        Kind::IORd => "IORd",
        Kind::IOWr => "IOWr",
        Kind::CfgRd0 => "CfgRd0",
        Kind::CfgWr0 => "CfgWr0",
        Kind::CfgRd1 => "CfgRd1",
        Kind::CfgWr1 => "CfgWr1",
        Kind::Msg => "Msg",
        Kind::MsgD => "MsgD",
        Kind::Cpl => "Cpl",
        Kind::CplD => "CplD",
        Kind::CplLk => "CplLk",
        Kind::CplDLk => "CplDLk",
        Kind::FetchAdd => "FetchAdd",
        Kind::Swap => "Swap",
        Kind::CAS => "CAS",
    }
}

/// Writes where a packet goes, or how it ends, if it says one of them.
fn write_end<W: Write>(out: &mut W, address: Option<u64>, status: Option<Status>) -> io::Result<()>
    ensures { OnOk result (Appends (W.contents out.old) (W.contents out.new) (end_text address status)) }
{
    match (address, status) {
        (Some(address), _) => write!(out, " address {address:x}"),
        (None, Some(status)) => {
            let status = status_name(status);
            write!(out, " status {status}")
        }
        (None, None) => Ok(()),
    }
}

/// Writes a packet's kind, its requester and its Tag.
fn write_head<W: Write>(out: &mut W, packet: &TlpView<'_>) -> io::Result<()>
    ensures { OnOk result (Appends (W.contents out.old) (W.contents out.new) (packet_head packet.now)) }
{
    let (kind, requester, tag) = (kind_name(packet.kind()), packet.requester(), packet.tag());
    write!(out, "{kind} requester {requester} tag {tag:02x}")
}

fn write_packet<W: Write>(out: &mut W, packet: &TlpView<'_>) -> io::Result<()>
    ensures { OnOk result (Appends (W.contents out.old) (W.contents out.new) (packet_text packet.now)) }
{
    write_head(out, packet)?;
    write_end(out, packet.address(), packet.status())
}

/// Writes which packet these bytes are, or why they are none.
fn write_bytes<W: Write>(out: &mut W, bytes: &[u8]) -> io::Result<()>
    ensures { OnOk result (Appends (W.contents out.old) (W.contents out.new) (bytes_are (malformed bytes.now) (packet_of bytes.now))) }
{
    match TlpView::read(bytes) {
        Ok(packet) => write_packet(out, &packet),
        Err(cause) => {
            let cause = cause.name();
            write!(out, "malformed {cause}")
        }
    }
}

/// Writes the comment on the packet of this number, with these bytes.
/// It says the packet's kind, whose it is, and where it goes or how it ended.
///
/// # Errors
///
/// Those of the writer.
pub(crate) fn write_packet_note<W: Write>(out: &mut W, number: u64, bytes: &[u8]) -> io::Result<()>
    ensures { OnOk result (Appends (W.contents out.old) (W.contents out.new) (note_line number bytes.now)) }
{
    write!(out, "# packet {number}: ")?;
    write_bytes(out, bytes)?;
    out.write_all(b"\n")
}
