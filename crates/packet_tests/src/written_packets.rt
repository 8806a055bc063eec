//! Packets that are written: completions, and requests of the host.

ghost use Rattle.std.specs.Prelude.{◌≡◌, ◌%◌};

use crate::packets::{READ, WRITE, result_of};
use fab_types::{AddressType, Bdf, Status};
use std::test::Fail;
use tlp_view::{
    Attributes, CompletionHead, CplBuf, Enables, Kind, RequestBuf, RequestHead, TlpView,
};

fn answer_to(request: &TlpView) -> Option<CplBuf> {
    match request.kind() {
        Kind::MRd if request.dw_length() <= 64 => {
            let head = CompletionHead::of_read(Bdf::from_bits(0), request);
            Some(CplBuf::new(head, usize::from(request.dw_length())))
        }
        _ => None,
    }
}

#[test]
fn a_read_is_completed(rt: HostRuntime) -> Result<(), Fail> {
    let request = TlpView::read(&READ).ok().ok_or("a packet")?;
    let mut answer = answer_to(&request).ok_or("a short read")?;
    assert_eq!(rt; answer.payload_mut().len(), 4);
    answer
        .payload_mut()
        .copy_from_slice(&[0x11, 0x22, 0x33, 0x44]);
    let bytes = [
        0x4a, 0, 0, 1, 0, 0, 0, 4, 3, 0, 0x20, 0, 0x11, 0x22, 0x33, 0x44,
    ];
    assert_eq!(rt; answer.bytes(), bytes.as_slice());
    let packet = TlpView::read(answer.bytes()).ok().ok_or("a completion")?;
    assert_eq!(rt; result_of(&packet), (Some(Status::SC), Some(4), Some(0)));
    Ok(())
}

#[test]
fn a_request_is_refused(rt: HostRuntime) -> Result<(), Fail> {
    let mut bytes = READ;
    bytes[6] = 0x23;
    let request = TlpView::read(&bytes).ok().ok_or("a packet")?;
    let head = CompletionHead::of_refusal(Bdf::from_bits(0), Status::UR, &request);
    let answer = CplBuf::new(head, 0);
    assert_eq!(rt;
        answer.bytes(),
        [0x0a, 0, 0, 0, 0, 0, 0x20, 4, 3, 0, 0x23, 0].as_slice()
    );
    Ok(())
}

#[test]
fn requests_are_made(rt: HostRuntime) -> Result<(), Fail> {
    let enables = Enables::all(1);
    let attributes = Attributes {
        id_based_ordering: false,
        relaxed_ordering: true,
        no_snoop: false,
    };
    let head = RequestHead {
        requester: Bdf::from_bits(0x0300),
        tag: 0x20,
        enables,
        address: 0x1000,
        address_type: AddressType::Untranslated,
        attributes,
    };
    let high = RequestHead {
        requester: Bdf::from_bits(0x0300),
        tag: 0,
        enables,
        address: 0x1_0000_0000,
        address_type: AddressType::Untranslated,
        attributes,
    };
    let read = RequestBuf::read(head, 1);
    assert_eq!(rt;
        read.bytes(),
        [0, 0, 0x20, 1, 3, 0, 0x20, 0x0f, 0, 0, 0x10, 0].as_slice()
    );
    let write = RequestBuf::write(high, &[0x11, 0x22, 0x33, 0x44]);
    let bytes = [
        0x60, 0, 0x20, 1, 3, 0, 0, 0x0f, 0, 0, 0, 1, 0, 0, 0, 0, 0x11, 0x22, 0x33, 0x44,
    ];
    assert_eq!(rt; write.bytes(), bytes.as_slice());
    let packet = TlpView::read(write.bytes()).ok().ok_or("a write")?;
    assert_eq!(rt; packet.address(), Some(0x1_0000_0000));
    assert!(rt; packet.attr().relaxed_ordering);
    Ok(())
}

// The same request in another page.
fn moved_to(request: &TlpView, page: u32) -> Option<RequestBuf>
    requires { page % 4096 ≡ 0 }
{
    if request.kind().is_memory() {
        let address = u64::from(page) + request.address().unwrap_or(0) % 4096;
        Some(RequestBuf::moved(request, address))
    } else {
        None
    }
}

#[test]
fn a_request_is_moved(rt: HostRuntime) -> Result<(), Fail> {
    let request = TlpView::read(&WRITE).ok().ok_or("a packet")?;
    let moved = moved_to(&request, 0x9030_0000).ok_or("a memory request")?;
    let bytes = [
        0x40, 0, 0, 1, 3, 0, 0x2f, 0x0f, 0x90, 0x30, 0, 0, 0x11, 0x22, 0x33, 0x44,
    ];
    assert_eq!(rt; moved.bytes(), bytes.as_slice());
    Ok(())
}
