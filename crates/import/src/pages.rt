//! The register page of a function.

ghost use Rattle.std.specs.Prelude.{◌≡◌};
ghost use Rattle.import.specs.Pages.{is_page, page_from};

use crate::role::LowWindow;
use lspci::{Bar, ConfigSpace};

/// Is a whole page at this address inside the window?
fn is_page(window: &LowWindow, address: u64) -> bool
    ensures { result ≡ is_page window.now address }
{
    address % 4096 == 0
        && u64::from(window.base) <= address
        && address <= u64::from(window.limit)
        && address + 4095 <= u64::from(window.limit)
}

/// The first page inside the window, of base address registers from this number on. So many are looked at, and of one
/// of 64 bits the next register has the upper half.
#[tactic(auto, using(crate::proofs::PageSteps::page_none, crate::proofs::PageSteps::page_step))]
pub fn page_from(space: &ConfigSpace<'_>, window: &LowWindow, left: u16, number: u16) -> Option<u32>
    ensures { result ≡ page_from space.now.bytes.now window.now left number }
{
    if left == 0 || number >= 6 {
        return None;
    }
    match space.bar(number)? {
        Bar::NoMemory => page_from(space, window, left - 1, number + 1),
        Bar::Memory { address } => {
            if is_page(window, u64::from(address)) {
                return Some(address);
            }
            page_from(space, window, left - 1, number + 1)
        }
        Bar::WideMemory { address } => {
            if is_page(window, address) {
                return u32::try_from(address).ok();
            }
            page_from(space, window, left - 1, number + 2)
        }
    }
}
