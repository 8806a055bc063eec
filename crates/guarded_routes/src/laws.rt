//! Laws of guarded layouts. Each is the contract of a function that does nothing.

ghost use Rattle.std.specs.Prelude.{◌≡◌, ◌≢◌, ℕ, suc, ◌<◌, Bool, List, ◌∷◌, All, Option, Some, None, true, false, slice_get};
ghost use Rattle.platform.specs.declared.parts.DownstreamPort.{DownstreamPort};
ghost use Rattle.platform.specs.declared.parts.Switch.{Switch};
ghost use Rattle.platform.specs.Platform.{Platform};
ghost use Rattle.platform.specs.Owners.{holds_bus, is_function, owner_of_bus};
ghost use Rattle.platform.specs.Tree.{id_below, port_at, switch_on};
ghost use Rattle.platform.specs.Share.{Share};
ghost use Rattle.layout.specs.Laws.{IsPlatform};
ghost use Rattle.layout.specs.Views.{share_of_domain};
ghost use Rattle.fab_types.specs.Id.{bus_of, host_of};
ghost use Rattle.fab_types.specs.declared.head.Header.TheVariants as header;
ghost use Rattle.fab_types.specs.declared.head.Parties.{Parties};
ghost use Rattle.fab_types.specs.declared.head.Parties.TheVariants.{Upward};
ghost use Rattle.fab_types.specs.declared.place.Direction.{Direction};
ghost use Rattle.fab_types.specs.declared.origin.Origin.TheVariants.{Function, Host};
ghost use Rattle.fab_types.specs.declared.violation.Violation.{Violation};
ghost use Rattle.fab_types.specs.declared.place.Way.TheVariants.{Up, Down};
ghost use Rattle.frame_log.specs.Descriptor.{Descriptor};
ghost use Rattle.tlp_view.specs.Bytes.{packet_of};
ghost use Rattle.tlp_view.specs.Kinds.{is_completion};
ghost use Rattle.tlp_view.specs.Malformed.{malformed};
ghost use Rattle.tlp_view.specs.Packet.{Packet};
ghost use Rattle.acs.specs.Vetting as ports;
ghost use Rattle.bridge.specs.Bridges.{Routes, of_platform};
ghost use Rattle.bridge.specs.Routes.{switch_at};
ghost use Rattle.port.specs.Configs.{Config, downstream_config, upstream_config};
ghost use Rattle.port.specs.Courses.{course_of};
ghost use Rattle.port.specs.declared.course.Forwarding.TheVariants.{Stop};
ghost use Rattle.request_handling.specs.Fates as fates;
ghost use Rattle.request_handling.specs.Fates.{fate};
ghost use Rattle.domain.specs.declared.entry.Entry.{Entry};
ghost use Rattle.domain.specs.declared.entry.Entry.TheVariants.{Carry, Deliver, Mmio, Refuse, Submit, Tick};
ghost use Rattle.fab_types.specs.declared.host_access.HostAccess.{HostAccess};
ghost use Rattle.request_handling.specs.Heads.{descriptor_of, head_of, packet_header};
ghost use Rattle.domain.specs.Machine.{change, replay};
ghost use Rattle.request_handling.specs.Emissions.{Emission};
ghost use Rattle.domain_state.specs.State.{Alone, Change};
ghost use Rattle.request_handling.specs.WellMade.{IsWellMade};
ghost use Rattle.guarded_routes.specs.Ends.{Flies, IsFor, IsLegal, IsOwnRequest, IsRequestTo};
ghost use Rattle.guarded_routes.specs.Guarded.{IsFunctionOf, IsGuarded, is_below, top_id};
ghost use Rattle.guarded_routes.specs.Links.{IsWay, link_above};
ghost use Rattle.guarded_routes.specs.Sound.{IsSound, is_reply};
ghost use Rattle.guarded_routes.specs.Ways.{Passes, PassesDown, direction_out};
ghost use Rattle.guarded_routes.specs.FirstPorts.{IsGuardedFirst, by_fate, report_at, sent_by};

/// A downstream port and its sender's machine test alike (PCIe 4.0, 6.12.1.1).
/// In every layout, what a downstream port tests of a packet's header is what the machine of the sender's
/// domain tests of the packet: Source Validation, and Translation Blocking, of whatever is no completion.
pub fn ports_and_machines_test_alike()
    ensures source { (port : DownstreamPort) (parties : Parties) (t : Packet) → is_completion t.kind ≡ false → ports.fails_source port (packet_header parties t) ≡ fates.fails_source port t }
    ensures translation { (port : DownstreamPort) (parties : Parties) (t : Packet) → is_completion t.kind ≡ false → ports.fails_translation port (packet_header parties t) ≡ fates.fails_translation port t }
{}

/// Each port above a bus has the owner of that bus (PCIe 4.0, 7.5.1.3).
/// This is so in every layout, for all ports that hold the bus and not only for the first that is found.
pub fn ports_share_the_owner_of_a_bus()
    ensures { (platform : Platform) (port : DownstreamPort) (bus : ℕ) → IsPlatform platform → port_at platform.ports port.id ≡ Some port → holds_bus port bus ≡ true
        → owner_of_bus platform.ports bus ≡ Some port.owner }
{}

/// A guarded first port does what the machine of the function's domain says.
/// It is a port with all five controls set; in a guarded layout the port directly above a function is such a
/// port. It does so with each request of the function below it, and with all bytes that spell no packet, by
/// what that machine alone says:
///
/// - What has the host as its fate goes up.
/// - What goes directly to another function goes by the route that the port leaves it.
/// - Anything else is stopped there; and a request that fails a test of the port is reported.
pub fn guarded_ports_do_what_fates_say()
    ensures fate { (tree : Routes) (config : Config) (line : DownstreamPort) (function : ℕ) (bytes : List ℕ)
        → IsGuardedFirst tree.ports config line function
        → (malformed bytes ≡ None → is_completion (packet_of bytes).kind ≡ false)
        → course_of tree config (head_of (sent_by function bytes)) ≡ by_fate tree.ports config line (head_of (sent_by function bytes)) (fate tree.ports function bytes) (report_at line function (head_of (sent_by function bytes))) }
    ensures first { (platform : Platform) (line : DownstreamPort) (domain : ℕ) → IsGuarded platform → port_at platform.ports line.id ≡ Some line → IsFunctionOf platform domain (id_below line)
        → IsGuardedFirst platform.ports (downstream_config platform line) line (id_below line) }
{}

/// At a downstream port a sound packet stays sound, or is stopped.
/// It is sound on the link below the port. One of these happens:
///
/// - It goes on up, where it is sound, if the port doesn't let it through to another port of its switch.
/// - It goes on there, directly to the function below that, where it is sound: if the port lets it through, or
///   as a completion with Relaxed Ordering.
/// - The port is the first one above the function that sent it, and stops it.
///
/// It is never stray. What goes on may go on: its requester, if it has one, is of its domain. What is stopped
/// has a case as refused.
pub fn ports_pass()
    ensures passes { (platform : Platform) (line : DownstreamPort) (frame : Descriptor) → IsGuarded platform → port_at platform.ports line.id ≡ Some line
        → IsSound platform (record { lower = id_below line; way = Up }) frame
        → Passes platform line frame (course_of (of_platform platform) (downstream_config platform line) frame.head) }
    ensures refused { (platform : Platform) (line : DownstreamPort) (frame : Descriptor) (state : Alone) (report : Option Violation) → IsGuarded platform → port_at platform.ports line.id ≡ Some line
        → IsSound platform (record { lower = id_below line; way = Up }) frame
        → course_of (of_platform platform) (downstream_config platform line) frame.head ≡ Stop report
        → Flies state frame → IsLegal platform state frame (Refuse frame.number) }
{}

/// At the upstream port of a switch a sound packet goes on down.
/// It is sound on the link above the port, and on the link that it goes on to.
pub fn upstream_ports_pass()
    ensures { (platform : Platform) (switch : Switch) (frame : Descriptor) → IsGuarded platform → switch_at platform.switches switch.id ≡ Some switch
        → IsSound platform (record { lower = switch.id; way = Down }) frame
        → PassesDown platform switch frame (course_of (of_platform platform) (upstream_config platform switch) frame.head) }
{}

/// What a sound packet is at the host.
/// A request is a memory request of a function of its domain, in the name of an ID of that domain, goes
/// directly to no other function, and has a case as carried. A completion that goes to bus 00 goes to the host
/// of its domain, and has a case as delivered. One that goes to another bus is sound on the way down.
pub fn host_takes()
    ensures request { (platform : Platform) (frame : Descriptor) → IsGuarded platform → IsSound platform (record { lower = top_id; way = Up }) frame
        → is_reply frame.head.header ≡ false → IsOwnRequest platform frame }
    ensures carried { (platform : Platform) (frame : Descriptor) (state : Alone) → IsGuarded platform → IsSound platform (record { lower = top_id; way = Up }) frame
        → is_reply frame.head.header ≡ false → Flies state frame → IsLegal platform state frame (Carry frame.number) }
    ensures reply { (platform : Platform) (frame : Descriptor) (target : ℕ) (relaxed_ordering : Bool) → IsGuarded platform → IsSound platform (record { lower = top_id; way = Up }) frame
        → frame.head.header ≡ header.Completion target relaxed_ordering → bus_of target ≡ 0 → (target ≡ host_of frame.domain) × IsFor (Host frame.domain) frame.head.parties }
    ensures delivered { (platform : Platform) (frame : Descriptor) (target : ℕ) (relaxed_ordering : Bool) (state : Alone) → IsGuarded platform → IsSound platform (record { lower = top_id; way = Up }) frame
        → frame.head.header ≡ header.Completion target relaxed_ordering → bus_of target ≡ 0 → Flies state frame → IsLegal platform state frame (Deliver frame.number) }
    ensures relayed { (platform : Platform) (frame : Descriptor) (target : ℕ) (relaxed_ordering : Bool) → IsGuarded platform → IsSound platform (record { lower = top_id; way = Up }) frame
        → frame.head.header ≡ header.Completion target relaxed_ordering → bus_of target ≢ 0 → IsSound platform (record { lower = top_id; way = Down }) frame }
{}

/// At a function a sound packet is of the function's own domain. A completion is for that function, and
/// has a case as delivered. Anything else is a request to it, by the host or directly by another function
/// of the domain, and has a case as carried in each state that a journal of the domain leaves.
pub fn functions_take()
    ensures home { (platform : Platform) (function : ℕ) (frame : Descriptor) → IsGuarded platform → is_function platform.functions function ≡ true → IsSound platform (record { lower = function; way = Down }) frame
        → IsFunctionOf platform frame.domain function }
    ensures reply { (platform : Platform) (function : ℕ) (frame : Descriptor) → IsGuarded platform → is_function platform.functions function ≡ true → IsSound platform (record { lower = function; way = Down }) frame
        → is_reply frame.head.header ≡ true → IsFor (Function function) frame.head.parties }
    ensures delivered { (platform : Platform) (function : ℕ) (frame : Descriptor) (state : Alone) → IsGuarded platform → is_function platform.functions function ≡ true → IsSound platform (record { lower = function; way = Down }) frame
        → is_reply frame.head.header ≡ true → Flies state frame → IsLegal platform state frame (Deliver frame.number) }
    ensures request { (platform : Platform) (function : ℕ) (frame : Descriptor) → IsGuarded platform → is_function platform.functions function ≡ true → IsSound platform (record { lower = function; way = Down }) frame
        → is_reply frame.head.header ≡ false → IsRequestTo platform frame function }
    ensures carried { (platform : Platform) (function : ℕ) (frame : Descriptor) (state : Alone) (journal : List Entry) → IsGuarded platform → is_function platform.functions function ≡ true → IsSound platform (record { lower = function; way = Down }) frame
        → is_reply frame.head.header ≡ false → replay (share_of_domain platform frame.domain) journal ≡ Some state → Flies state frame → IsLegal platform state frame (Carry frame.number) }
{}

/// What a domain's machine emits is sound on the link that it enters.
///
/// - What a function sends is on its own link, up; and so is its answer to a sound request.
/// - An access of the host is on the host's link, down; and so is what answers a sound request at the host, or
///   goes on to a function in its place.
/// - A port's answer to what it stopped is on the link below it, down.
///
/// Completions are answered by nothing. That what is made is well made, as a domain keeps it, is a premise.
pub fn emissions_are_sound()
    ensures submitted { (platform : Platform) (domain function number : ℕ) (bytes : List ℕ) (state : Alone) (made : Change) (emission : Emission) → IsGuarded platform
        → change (share_of_domain platform domain) state (Submit function bytes) ≡ Some made → made.emission ≡ Some emission
        → IsSound platform (record { lower = function; way = Up }) (descriptor_of domain number emission) }
    ensures ticked { (platform : Platform) (domain function number : ℕ) (state : Alone) (made : Change) (emission : Emission) → IsGuarded platform
        → change (share_of_domain platform domain) state (Tick function) ≡ Some made → made.emission ≡ Some emission
        → IsSound platform (record { lower = function; way = Up }) (descriptor_of domain number emission) }
    ensures accessed { (platform : Platform) (domain number : ℕ) (access : HostAccess) (state : Alone) (made : Change) (emission : Emission) → IsGuarded platform
        → change (share_of_domain platform domain) state (Mmio access) ≡ Some made → made.emission ≡ Some emission → IsWellMade emission.parties emission.bytes
        → IsSound platform (record { lower = top_id; way = Down }) (descriptor_of domain number emission) }
    ensures carried { (platform : Platform) (frame : Descriptor) (number : ℕ) (state : Alone) (made : Change) (emission : Emission) → IsGuarded platform
        → IsSound platform (record { lower = top_id; way = Up }) frame → is_reply frame.head.header ≡ false → Flies state frame
        → change (share_of_domain platform frame.domain) state (Carry frame.number) ≡ Some made → made.emission ≡ Some emission → IsWellMade emission.parties emission.bytes
        → IsSound platform (record { lower = top_id; way = Down }) (descriptor_of frame.domain number emission) }
    ensures answered { (platform : Platform) (function : ℕ) (frame : Descriptor) (number : ℕ) (state : Alone) (made : Change) (emission : Emission) → IsGuarded platform → is_function platform.functions function ≡ true
        → IsSound platform (record { lower = function; way = Down }) frame → is_reply frame.head.header ≡ false → Flies state frame
        → change (share_of_domain platform frame.domain) state (Carry frame.number) ≡ Some made → made.emission ≡ Some emission → IsWellMade emission.parties emission.bytes
        → IsSound platform (record { lower = function; way = Up }) (descriptor_of frame.domain number emission) }
    ensures refused { (platform : Platform) (function : ℕ) (frame : Descriptor) (number : ℕ) (state : Alone) (made : Change) (emission : Emission) → IsGuarded platform
        → IsSound platform (record { lower = function; way = Up }) frame → frame.head.parties ≡ Upward function → Flies state frame
        → change (share_of_domain platform frame.domain) state (Refuse frame.number) ≡ Some made → made.emission ≡ Some emission → IsWellMade emission.parties emission.bytes
        → IsSound platform (record { lower = function; way = Down }) (descriptor_of frame.domain number emission) }
    ensures delivered { (share : Share) (state : Alone) (number : ℕ) (made : Change) → change share state (Deliver number) ≡ Some made → made.emission ≡ None }
{}

/// Each function of a guarded layout has a way up to the host.
/// These are the links from its own on, each followed by the one above it, up to that between the top switch
/// and the host, which has none above it. Each link has one way at most.
pub fn functions_have_ways()
    ensures way { (platform : Platform) (domain function : ℕ) → IsGuarded platform → IsFunctionOf platform domain function → (links : List ℕ) × IsWay platform function links }
    ensures only { (platform : Platform) (lower : ℕ) (one other : List ℕ) → IsGuarded platform → IsWay platform lower one → IsWay platform lower other → one ≡ other }
    ensures top { (platform : Platform) → IsGuarded platform → link_above platform top_id ≡ None }
{}

/// A way has no link twice.
/// Of two of its links the later has the lower bus. It starts with the link that it is the way from, and behind
/// its first comes the way from the link above.
pub fn ways_are_simple()
    ensures falls { (platform : Platform) (lower first : ℕ) (links : List ℕ) → IsWay platform lower (first ∷ links) → All (λ (link : ℕ). bus_of link < bus_of first) links }
    ensures places { (platform : Platform) (lower : ℕ) (links : List ℕ) (earlier later one other : ℕ) → IsWay platform lower links → earlier < later → slice_get links earlier ≡ Some one → slice_get links later ≡ Some other → bus_of other < bus_of one }
    ensures starts { (platform : Platform) (lower first : ℕ) (links : List ℕ) → IsWay platform lower (first ∷ links) → first ≡ lower }
    ensures tails { (platform : Platform) (lower first next : ℕ) (links : List ℕ) → IsWay platform lower (first ∷ next ∷ links) → (link_above platform first ≡ Some next) × IsWay platform next (next ∷ links) }
{}

/// Each link of a function's way has the function below it.
pub fn ways_hold_their_function()
    ensures { (platform : Platform) (domain function : ℕ) (links : List ℕ) → IsGuarded platform → IsFunctionOf platform domain function → IsWay platform function links
        → All (λ (link : ℕ). is_below platform link function ≡ true) links }
{}

/// Of the links directly below a switch one at most has the function below it.
pub fn one_link_below()
    ensures { (platform : Platform) (domain function one other above : ℕ) → IsGuarded platform → IsFunctionOf platform domain function
        → link_above platform one ≡ Some above → link_above platform other ≡ Some above → is_below platform one function ≡ true → is_below platform other function ≡ true → one ≡ other }
{}

/// What goes up from a downstream port keeps to the way.
/// It goes on to the link above that below the port.
pub fn what_goes_up_keeps_to_the_way()
    ensures { (platform : Platform) (line : DownstreamPort) (switch : Switch) (direction : Direction) → IsGuarded platform → port_at platform.ports line.id ≡ Some line
        → switch_on platform.switches (bus_of line.id) ≡ Some switch → direction_out platform switch 0 ≡ Some direction
        → (direction.way ≡ Up) × (link_above platform (id_below line) ≡ Some direction.lower) }
{}

/// What goes down from a switch keeps to the way.
/// It goes on to a link that has the switch's own link above it: from the upstream port, and also from another
/// downstream port.
pub fn what_goes_down_keeps_to_the_way()
    ensures down { (platform : Platform) (switch : Switch) (place : ℕ) (direction : Direction) → IsGuarded platform → switch_at platform.switches switch.id ≡ Some switch
        → direction_out platform switch (suc place) ≡ Some direction → (direction.way ≡ Down) × (link_above platform direction.lower ≡ Some switch.id) }
    ensures across { (platform : Platform) (line : DownstreamPort) (switch : Switch) (place : ℕ) (direction : Direction) → IsGuarded platform → switch_on platform.switches (bus_of line.id) ≡ Some switch
        → direction_out platform switch (suc place) ≡ Some direction → (direction.way ≡ Down) × (link_above platform direction.lower ≡ Some switch.id) }
{}
