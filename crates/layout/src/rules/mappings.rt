//! What is wrong with a `map` line.

ghost use Rattle.std.specs.Prelude.{◌≡◌, IfNone, false, true};
ghost use Rattle.layout.specs.Laws.{each_pair, share_no_frame};
ghost use Rattle.layout.specs.Rules.{is_known_target, is_past_frames, is_foreign_frame, is_foreign, is_of_requester, is_mapped, has_full_table, map_fault};

use crate::layout::Layout;
use crate::map_lines::MapLines;
use fab_types::{Bdf, LayoutCause};
use layout_line::{MapText, TargetText};
use platform::{DownstreamPort, EndpointFunction, Mapping, domain_of, is_function};

fn is_known_target(functions: &[EndpointFunction], target: &TargetText) -> bool
    ensures { result ≡ is_known_target functions.now target.now }
{
    match target {
        TargetText::Frame(_) => true,
        TargetText::Peer(peer) => is_function(functions, *peer),
    }
}

fn is_past_frames(frames: u16, target: &TargetText) -> bool
    ensures value { result ≡ is_past_frames frames target.now }
    ensures small { result ≡ false → is_past_frames 65536 target.now ≡ false }
{
    match target {
        TargetText::Frame(frame) => u32::from(frames) <= *frame,
        TargetText::Peer(_) => false,
    }
}

/// Did a function of another domain map the frame? All that mapped it are of one domain, so the first
/// of them tells.
fn is_foreign_frame(ports: &[DownstreamPort], maps: &MapLines, domain: u8, frame: u32) -> bool
    requires { each_pair (share_no_frame ports.now) maps.now ≡ true }
    ensures { result ≡ is_foreign_frame ports.now maps.now domain frame }
{
    match maps.first_of_frame(frame) {
        Some(requester) => domain_of(ports, requester) != domain,
        None => false,
    }
}

fn is_foreign(ports: &[DownstreamPort], maps: &MapLines, domain: u8, target: &TargetText) -> bool
    requires { each_pair (share_no_frame ports.now) maps.now ≡ true }
    ensures { result ≡ is_foreign ports.now maps.now domain target.now }
{
    match target {
        TargetText::Frame(frame) => is_foreign_frame(ports, maps, domain, *frame),
        TargetText::Peer(peer) => domain_of(ports, *peer) != domain,
    }
}

fn is_of_requester(requester: Bdf, line: &Mapping) -> bool
    ensures { result ≡ is_of_requester requester line.now }
{
    line.requester == requester
}

#[tactic(auto, unfolding(crate::specs::Rules::is_mapped))]
fn is_mapped_among(lines: &[Mapping], requester: Bdf, page: u64) -> bool
    ensures { result ≡ is_mapped lines.now requester page }
{
    lines.iter().any(|line| is_of_requester(requester, line) && line.page == page)
}

fn is_mapped(maps: &MapLines, requester: Bdf, page: u64) -> bool
    ensures { result ≡ is_mapped maps.now requester page }
{
    is_mapped_among(maps.on_bus(requester.bus()), requester, page)
}

#[tactic(auto, unfolding(crate::specs::Rules::has_full_table))]
fn is_full_table(lines: &[Mapping], requester: Bdf) -> bool
    ensures { result ≡ has_full_table lines.now requester }
{
    64 <= lines
        .iter()
        .filter(|line| is_of_requester(requester, line))
        .count()
}

fn has_full_table(maps: &MapLines, requester: Bdf) -> bool
    ensures { result ≡ has_full_table maps.now requester }
{
    is_full_table(maps.on_bus(requester.bus()), requester)
}

impl Layout {
    /// `map ID PAGE frame K ACCESS`, `map ID PAGE peer ID2 ACCESS`: 64 lines of a requester.
    #[tactic(auto, unfolding(crate::specs::Rules::map_fault))]
    pub(crate) fn map_fault(&self, map: &MapText) -> Option<LayoutCause>
        ensures value { result ≡ map_fault self.now map.now }
        ensures frame { IfNone result (is_past_frames 65536 map.now.target ≡ false) }
    {
        let requester = map.requester;
        let target = &map.target;
        if !is_function(self.functions(), requester) || !is_known_target(self.functions(), target) {
            return Some(LayoutCause::Line);
        }
        if is_past_frames(self.frames(), target) || has_full_table(self.maps(), requester) {
            return Some(LayoutCause::Limit);
        }
        let domain = domain_of(self.ports(), requester);
        if is_foreign(self.ports(), self.maps(), domain, target) {
            return Some(LayoutCause::MapForeign);
        }
        if is_mapped(self.maps(), requester, map.page) {
            return Some(LayoutCause::MapTwice);
        }
        None
    }
}
