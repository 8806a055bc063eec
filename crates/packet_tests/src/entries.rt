use fab_types::{Bdf, Class, Cost, DomainId, Head, Header, Parties};
use frame_log::Log;
use std::test::Fail;

/// A write of 03:00.0.
const WRITE: [u8; 16] = [
    0x40, 0, 0, 1, 3, 0, 0, 0x0f, 0, 0, 0x10, 0, 0x11, 0x22, 0x33, 0x44,
];

fn head() -> Head {
    Head {
        parties: Parties::Upward(Bdf::from_bits(0x0300)),
        cost: Cost::without_data(Class::Posted),
        header: Header::Malformed,
    }
}

fn emit_more(log: &Log, domain: DomainId) -> bool {
    for number in 0..1000 {
        if log.emit(domain, number, head(), &WRITE[..12]).is_err() {
            return false;
        }
    }
    true
}

#[test]
fn an_entry_is_read_after_its_token_was_dropped(rt: HostRuntime) -> Result<(), Fail> {
    let domain = DomainId::new(1).ok_or("a domain")?;
    let log = Log::new(rt.alloc())?;
    let (frame, token) = log.emit(domain, 7, head(), &WRITE)?;
    let entry = log.lend(&token);
    drop(token);
    drop(frame);
    assert!(rt; emit_more(&log, domain));
    assert_eq!(rt; entry.domain, domain);
    assert_eq!(rt; entry.number, 7);
    assert_eq!(rt; entry.bytes.as_slice(), &WRITE[..]);
    Ok(())
}
