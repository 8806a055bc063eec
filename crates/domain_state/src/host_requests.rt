//! Requests of a domain's host for a register page.

ghost use Rattle.std.specs.Prelude.{◌≡◌, ◌+◌, ◌*◌, ◌%◌, ◌≤◌, length, true};
ghost use Rattle.function.specs.Accesses.{IsAccess};
ghost use Rattle.tlp_view.specs.Requests.{RequestFits};
ghost use Rattle.request_handling.specs.Answers.{page_at};
ghost use Rattle.domain_state.specs.HostAccesses.{free_host_tag, head_for, host_request, is_in_page, opened_for, size_of, tag_for};

use fab_types::{AddressType, DomainId, Operation, Origin};
use function::{OpenTag, OpenTags, TagUse};
use tlp_view::{Attributes, Enables, RequestBuf, RequestHead};

/// How many Tags a host has, from 0 on (PCIe 4.0, 2.2.6.2).
const HOST_TAGS: u8 = 32;

/// How many bytes are read or written.
pub fn size_of(operation: &Operation) -> u64
    ensures { result ≡ size_of operation.now }
{
    match operation {
        Operation::Read(count) => 4 * u64::from(*count),
        Operation::Write(bytes) => bytes.as_slice().len() as u64,
    }
}

/// May an access of so many bytes begin at this offset?
/// It has to be of whole DW, 1 to 64, within the page.
pub fn is_in_page(offset: u16, size: u64) -> bool
    ensures { result ≡ is_in_page offset size }
{
    offset % 4 == 0 && size % 4 == 0 && 4 <= size && size <= 256 && u64::from(offset) + size <= 4096
}

/// The lowest of the host's Tags that isn't open.
#[tactic(auto, unfolding(crate::specs::HostAccesses::free_host_tag))]
fn free_host_tag(open_tags: &OpenTags, domain: DomainId) -> Option<u8>
    ensures { result ≡ free_host_tag open_tags.now.items domain }
{
    (0..HOST_TAGS).find(|tag| !open_tags.is_open(Origin::Host(domain), *tag))
}

/// The Tag of the request, if it needs none or one is free.
pub fn tag_for(open_tags: &OpenTags, domain: DomainId, operation: &Operation) -> Option<u8>
    ensures { result ≡ tag_for open_tags.now.items domain operation.now }
{
    match operation {
        Operation::Read(_) => free_host_tag(open_tags, domain),
        Operation::Write(_) => Some(0),
    }
}

/// The Tag that it opens.
pub fn opened_for(domain: DomainId, tag: u8, operation: &Operation) -> Option<OpenTag>
    ensures { result ≡ opened_for domain tag operation.now }
{
    match operation {
        Operation::Read(_) => Some(OpenTag {
            owner: Origin::Host(domain),
            tag,
            usage: TagUse::Raw,
        }),
        Operation::Write(_) => None,
    }
}

fn head_for(domain: DomainId, tag: u8, count: u16, address: u64) -> RequestHead
    requires some { 1 ≤ count }
    requires most { count ≤ 64 }
    requires aligned { address % 4 ≡ 0 }
    requires within { address % 4096 + 4 * count ≤ 4096 }
    ensures value { result ≡ head_for domain tag count address }
    ensures fits { RequestFits result count }
{
    RequestHead {
        requester: domain.host(),
        tag,
        enables: Enables::all(count),
        address,
        address_type: AddressType::Untranslated,
        attributes: Attributes {
            id_based_ordering: false,
            relaxed_ordering: false,
            no_snoop: false,
        },
    }
}

/// The address of this place in the register page of the function with this BAR.
pub fn register_address(bar: u32, offset: u16) -> u64
    ensures { result ≡ page_at bar + offset }
{
    u64::from(bar / 4096 * 4096) + u64::from(offset)
}

/// The request of the host, which begins at this address of a page.
pub fn host_request(domain: DomainId, tag: u8, address: u64, operation: &Operation) -> RequestBuf
    requires within { is_in_page (address % 4096) (size_of operation.now) ≡ true }
    ensures value { result ≡ host_request domain tag address operation.now }
    ensures is_access { IsAccess result }
{
    match operation {
        Operation::Read(count) => {
            let count = *count as u16;
            RequestBuf::read(head_for(domain, tag, count, address), count)
        }
        Operation::Write(bytes) => {
            let bytes = bytes.as_slice();
            let count = (bytes.len() / 4) as u16;
            RequestBuf::write(head_for(domain, tag, count, address), bytes)
        }
    }
}
