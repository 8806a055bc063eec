//! The most frequent reason.

ghost use Rattle.std.specs.Prelude.{◌≡◌, count_by};
ghost use Rattle.import.specs.Most.{endpoints_out, has_reason, is_elsewhere, more_frequent, most_frequent, times};

use crate::reason::{LeftOut, Reason};

/// Is it an endpoint with a reason of this number?
fn has_reason(number: u8, part: &LeftOut) -> bool
    ensures { result ≡ has_reason number part.now }
{
    part.is_endpoint && part.why.reason.number() == number
}

/// Does a device with this reason stand elsewhere than below the ports that were asked for?
fn is_elsewhere(reason: &Reason) -> bool
    ensures { result ≡ is_elsewhere reason.now }
{
    matches!(reason, Reason::Segment | Reason::Outside)
}

/// How many endpoints have the reason of this device; none, where that stands elsewhere.
fn times(left_out: &[LeftOut], part: &LeftOut) -> usize
    ensures { result ≡ times left_out.now part.now }
{
    if is_elsewhere(&part.why.reason) {
        return 0;
    }
    let number = part.why.reason.number();
    left_out
        .iter()
        .filter(|other| has_reason(number, other))
        .count()
}

fn more_frequent(left_out: &[LeftOut], best: Option<LeftOut>, part: &LeftOut) -> Option<LeftOut>
    ensures { result ≡ more_frequent left_out.now best part.now }
{
    let Some(best) = best else {
        return Some(*part);
    };
    if times(left_out, part) <= times(left_out, &best) {
        Some(best)
    } else {
        Some(*part)
    }
}

/// The endpoint with the most frequent reason, or with the first of those. What stands elsewhere counts only where there
/// is nothing else.
pub fn most_frequent(left_out: &[LeftOut]) -> Option<LeftOut>
    ensures { result ≡ most_frequent left_out.now }
{
    let mut best = None;
    for part in left_out {
        if part.is_endpoint {
            best = more_frequent(left_out, best, part);
        }
    }
    best
}

/// How many of these are endpoints.
pub fn endpoints_out(left_out: &[LeftOut]) -> usize
    ensures { result ≡ endpoints_out left_out.now }
{
    left_out.iter().filter(|part| part.is_endpoint).count()
}
