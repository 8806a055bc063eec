//! The registers of a page.

ghost use Rattle.std.specs.Prelude.{◌≡◌, ◌+◌, ◌<◌, ◌≤◌, length, slice_set};
ghost use Rattle.function.specs.Registers.{are_kept, register_at, started, write_byte, write_bytes, write_page};
ghost use Rattle.tlp_view.specs.Runs.{runs};

use tlp_view::TlpView;

/// How many bytes a page has.
pub(crate) const PAGE: usize = 4096;
/// The offsets of the registers.
pub(crate) const CTRL: usize = 0x004;

pub(crate) const STATUS: usize = 0x008;

pub(crate) const PC: usize = 0x00c;

pub(crate) const PROGRAM: usize = 0x100;
/// The end of the program.
const PROGRAM_END: usize = 0x200;

pub(crate) const BUFFER: usize = 0x400;
/// The end of the buffer.
pub(crate) const BUFFER_END: usize = 0x800;

/// What STATUS shows.
pub(crate) const STOPPED: u8 = 0;

pub(crate) const RUNNING: u8 = 1;

pub(crate) const HALTED: u8 = 2;

pub(crate) const FAULT: u8 = 3;

/// The register to which a byte belongs.
#[derive(Clone, Copy, Debug, PartialEq, Eq)]
pub(crate) enum Register {
    Id,
    Control,
    Status,
    ProgramCounter,
    Program,
    Buffer,
}

/// The register of the byte at this offset.
#[tactic(auto, unfolding(crate::specs::Registers::register_at))]
fn register_at(offset: usize) -> Option<Register>
    ensures { result ≡ register_at offset }
{
    if offset < 4 {
        Some(Register::Id)
    } else if offset == CTRL {
        Some(Register::Control)
    } else if STATUS <= offset && offset < STATUS + 4 {
        Some(Register::Status)
    } else if PC <= offset && offset < PC + 4 {
        Some(Register::ProgramCounter)
    } else if PROGRAM <= offset && offset < PROGRAM_END {
        Some(Register::Program)
    } else if BUFFER <= offset && offset < BUFFER_END {
        Some(Register::Buffer)
    } else {
        None
    }
}

/// Starts or stops the program, as bit 0 of CTRL says.
fn start(page: &mut [u8], value: u8)
    requires { length page.old ≡ 4096 }
    ensures { page.new ≡ started page.old value }
{
    if value % 2 == 1 {
        page[CTRL] = 1;
        page[STATUS] = RUNNING;
        page[PC] = 0;
    } else {
        page[CTRL] = 0;
        page[STATUS] = STOPPED;
    }
}

/// A write of one byte.
fn write_byte(page: &mut [u8], offset: usize, value: u8)
    requires size { length page.old ≡ 4096 }
    requires inside { offset < 4096 }
    ensures { page.new ≡ write_byte page.old offset value }
{
    match register_at(offset) {
        Some(register) => match register {
            Register::Control => start(page, value),
            Register::Program | Register::Buffer => page[offset] = value,
            Register::Id | Register::Status | Register::ProgramCounter => {}
        },
        None => {}
    }
}

/// Do the bytes from `first` to `end` all belong to the program, or all to the buffer? These keep what is written.
fn are_kept(first: usize, end: usize) -> bool
    ensures { result ≡ are_kept first end }
{
    (PROGRAM <= first && end <= PROGRAM_END) || (BUFFER <= first && end <= BUFFER_END)
}

/// A write of these bytes, one after another.
fn write_each(page: &mut [u8], first: usize, bytes: &[u8])
    requires size { length page.old ≡ 4096 }
    requires inside { first + length bytes.now ≤ 4096 }
    ensures { page.new ≡ write_bytes page.old first bytes.now }
{
    for (i, byte) in bytes.iter().enumerate() {
        write_byte(page, first + i, *byte);
    }
}

/// A write of these bytes.
fn write_bytes(page: &mut [u8], first: usize, bytes: &[u8])
    requires size { length page.old ≡ 4096 }
    requires inside { first + length bytes.now ≤ 4096 }
    ensures { page.new ≡ write_bytes page.old first bytes.now }
{
    let end = first + bytes.len();
    if are_kept(first, end) {
        page[first..end].copy_from_slice(bytes);
    } else {
        write_each(page, first, bytes);
    }
}

/// A write of the enabled bytes of a packet, `first` being the byte that its address names.
pub(crate) fn write_page(page: &mut [u8], first: usize, request: &TlpView)
    requires size { length page.old ≡ 4096 }
    requires inside { first + length (request.now).payload ≤ 4096 }
    ensures { page.new ≡ write_page page.old first (runs request.now) }
{
    for (offset, part) in request.runs() {
        write_bytes(page, first + offset, part);
    }
}
