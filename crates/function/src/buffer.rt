//! The buffer of a page, into which completions are copied.

ghost use Rattle.std.specs.Prelude.{◌≡◌, ◌+◌, ◌*◌, length};
ghost use Rattle.function.specs.Closings.{closed, filled, is_success};
ghost use Rattle.fab_types.specs.Bytes.{overwritten};

use crate::registers::{BUFFER, BUFFER_END, FAULT, STATUS};
use fab_types::Status;

/// Puts bytes over others from an offset on. What would lie past the end is cut off.
fn overwrite(cells: &mut [u8], offset: usize, bytes: &[u8])
    ensures { cells.new ≡ overwritten cells.old offset bytes.now }
{
    if offset <= cells.len() {
        let count = bytes.len().min(cells.len() - offset);
        cells[offset..offset + count].copy_from_slice(&bytes[..count]);
    }
}

/// Puts bytes into the buffer.
fn fill(page: &mut [u8], offset: usize, bytes: &[u8])
    requires { length page.old ≡ 4096 }
    ensures { page.new ≡ filled page.old offset bytes.now }
{
    overwrite(&mut page[BUFFER..BUFFER_END], offset, bytes);
}

fn is_success(status: Status) -> bool
    ensures { result ≡ is_success status }
{
    match status {
        Status::SC => true,
        Status::UR | Status::CRS | Status::CA => false,
    }
}

/// What a completion does that closes the Tag of a read line.
pub(crate) fn close(page: &mut [u8], offset: u16, count: u8, status: Status, payload: &[u8])
    requires { length page.old ≡ 4096 }
    ensures { page.new ≡ closed page.old offset count status payload.now }
{
    if is_success(status) && payload.len() == 4 * usize::from(count) {
        fill(page, usize::from(offset), payload);
    } else {
        page[STATUS] = FAULT;
    }
}
