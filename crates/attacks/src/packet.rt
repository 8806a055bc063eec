//! What all requests of 1 DW have in common.

ghost use Rattle.std.specs.Prelude.{◌≡◌};
ghost use Rattle.attacks.specs.Packets.{head_at, start_of};

use fab_types::{AddressType, Bdf};
use tlp_view::{Attributes, Enables, RequestHead};

/// Where a page begins.
pub(crate) fn start_of(page: u64) -> u64
    ensures { result ≡ start_of page }
{
    page % 0x10_0000_0000_0000 * 4096
}

/// All bytes of one DW, with Tag 0.
pub(crate) fn head_at(requester: Bdf, address: u64, address_type: AddressType) -> RequestHead
    ensures { result ≡ head_at requester address address_type }
{
    RequestHead {
        requester,
        tag: 0,
        enables: Enables { first: 15, last: 0 },
        address,
        address_type,
        attributes: Attributes {
            id_based_ordering: false,
            relaxed_ordering: false,
            no_snoop: false,
        },
    }
}
