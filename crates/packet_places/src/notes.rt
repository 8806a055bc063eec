//! Packets of a domain are noted, by their numbers.

ghost use Rattle.std.specs.Prelude.{[], ◌∷◌, OnOk, map};
ghost use Rattle.packet_places.specs.Noted.{Notes};

use fab_types::DomainId;
use frame_log::Frame;
use std::alloc::AllocFailed;
use std::collections::BTreeMap;

/// Notes that this packet stands at this place, if the domain made it.
fn note_one(
    found: &mut BTreeMap<u64, usize>,
    frame: &Frame,
    domain: DomainId,
    place: usize,
) -> Result<(), AllocFailed<(u64, usize)>>
    ensures { OnOk result (Notes domain place (frame.now ∷ []) found.old.entries found.new.entries) }
{
    if frame.domain() == domain {
        let _earlier = found.insert(frame.number(), place)?;
    }
    Ok(())
}

/// Notes this place of each of its packets that the domain made.
pub(crate) fn note(
    found: &mut BTreeMap<u64, usize>,
    frames: &[&Frame],
    domain: DomainId,
    place: usize,
) -> Result<(), AllocFailed<(u64, usize)>>
    ensures { OnOk result (Notes domain place (map (λ frame. frame.now) frames.now) found.old.entries found.new.entries) }
{
    for frame in frames {
        note_one(found, frame, domain, place)?;
    }
    Ok(())
}
