//! Reports of one port, and what becomes of them.

ghost use Rattle.std.specs.Prelude.{◌≡◌};

use fab_types::{Bdf, Check, PortId, Violation};
use lane::Reporter;
use monitor::{PLACES, Report, Watch};

/// The violation that a test reports with this number.
pub(crate) fn violation(number: u16) -> Violation {
    Violation {
        port: PortId::new(Bdf::from_bits(0x0500)),
        check: Check::SourceValidation,
        sender: Bdf::from_bits(number),
        requester: Bdf::from_bits(0x0300),
        posted: false,
    }
}

/// Are the reports of this seat those of the first numbers, each once and in order?
pub(crate) fn has_in_order(list: &[Report], seat: u64, count: u16) -> bool {
    let mut next = 0;
    for report in list {
        if report.seat == seat {
            if report.number != u64::from(next) || report.violation != violation(next) {
                return false;
            }
            next = next.wrapping_add(1);
        }
    }
    next == count
}

/// Reports the violations of the first numbers. It answers how many came back.
fn report_all<R: Reporter>(reporter: &mut R, count: u16) -> u16
    ensures { R.line reporter.new ≡ R.line reporter.old }
{
    let mut returned = 0u16;
    for number in 0..count {
        if reporter.prepare_report().is_err() || reporter.report(violation(number)).is_err() {
            returned = returned.wrapping_add(1);
        }
    }
    returned
}

#[test]
fn of_a_hundred_reports_that_nobody_takes_sixty_four_are_in_the_list(rt: HostRuntime) {
    let Ok(mut watch) = Watch::open(rt.alloc()) else {
        panic!(rt; "no queue");
    };
    let Ok(mut port) = watch.admit() else {
        panic!(rt; "no end of a port");
    };
    assert_eq!(rt; report_all(&mut port, 100), 36);
    watch.close(port);
    let Ok(list) = watch.finish(&rt) else {
        panic!(rt; "no list");
    };
    assert_eq!(rt; list.len(), PLACES);
    assert!(rt; has_in_order(&list, 0, 64));
}

#[test]
fn a_report_is_taken_once(rt: HostRuntime) {
    let Ok(mut watch) = Watch::open(rt.alloc()) else {
        panic!(rt; "no queue");
    };
    let Ok(mut port) = watch.admit() else {
        panic!(rt; "no end of a port");
    };
    assert_eq!(rt; watch.take(), Ok(false));
    assert_eq!(rt; report_all(&mut port, 1), 0);
    assert_eq!(rt; watch.take(), Ok(true));
    assert_eq!(rt; watch.take(), Ok(false));
}
