//! Laws of every plan. Each is the contract of a function that does nothing.

ghost use Rattle.std.specs.Prelude.{◌≡◌, ◌+◌, ◌*◌, ◌<◌, ℕ, All, List, Some, length, map, slice_index_or};
ghost use Rattle.layout.specs.Laws.{IsPlatform};
ghost use Rattle.layout.specs.Places.{IsWellPlaced};
ghost use Rattle.platform.specs.declared.parts.Switch.{Switch};
ghost use Rattle.platform.specs.Platform.{Platform};
ghost use Rattle.thread_crew.specs.declared.worker_id.WorkerId.{WorkerId};
ghost use Rattle.topology.specs.Links.{links_of};
ghost use Rattle.topology.specs.Nodes.{outputs_of_switch};
ghost use Rattle.thread_rings.specs.Names.{RingName};
ghost use Rattle.thread_rings.specs.Wired.{dealt, no_tags};
ghost use Rattle.thread_rings.specs.declared.wire.Wire.{Wire};
ghost use Rattle.thread_plan.specs.declared.route.Route.{Route};
ghost use Rattle.thread_plan.specs.Nodes.{worker_at};
ghost use Rattle.thread_plan.specs.Plans.{plan_of, route_of, routes_of, wires_from, wires_into};
ghost use Rattle.thread_plan.specs.Routes.{IsPortOf, back, credit_routes, lanes_of, link_routes, pair_routes, routes_from, routes_into, up_routes};
ghost use Rattle.thread_plan.specs.Workers.{number_of, workers_of};

/// Every route has its wire.
/// Read by the names of the workers, each table is the list of its routes, in their order. So each route has
/// one wire.
pub fn every_route_has_its_wire()
    ensures links { (platform : Platform) → routes_of platform (plan_of platform).links ≡ link_routes platform }
    ensures credits { (platform : Platform) → routes_of platform (plan_of platform).credits ≡ credit_routes platform }
    ensures pairs { (platform : Platform) → routes_of platform (plan_of platform).pairs ≡ pair_routes platform }
{}

/// A ring along a link has 381 places, and each other ring 16.
pub fn rings_have_their_places()
    ensures links { (platform : Platform) → All (λ wire. wire.places ≡ 381) (plan_of platform).links }
    ensures credits { (platform : Platform) → All (λ wire. wire.places ≡ 16) (plan_of platform).credits }
    ensures pairs { (platform : Platform) → All (λ wire. wire.places ≡ 16) (plan_of platform).pairs }
{}

/// The routes up are those of the links of the tree, in their order.
/// Each leads from the worker at the lower end of its link to the worker at the upper end.
pub fn routes_go_along_links()
    ensures lower { (platform : Platform) → IsPlatform platform → map (λ link. worker_at platform link.below) (links_of platform) ≡ map (λ r. Some r.from) (up_routes platform) }
    ensures upper { (platform : Platform) → IsPlatform platform → map (λ link. worker_at platform link.above) (links_of platform) ≡ map (λ r. Some r.to) (up_routes platform) }
{}

/// Each direction of each link has a ring for packets and one for credits.
/// For the link of number i, the packets that go up have that of number 2 i, and those that go down the next.
/// Their credits go the other way.
pub fn each_direction_has_its_rings()
    ensures links { (platform : Platform) → length (plan_of platform).links ≡ 2 * length (links_of platform) }
    ensures credits { (platform : Platform) → length (plan_of platform).credits ≡ 2 * length (links_of platform) }
    ensures up { (platform : Platform) (i : ℕ) (w : Wire) (r : Route) → i < length (links_of platform)
        → route_of (workers_of platform) (slice_index_or (plan_of platform).links (2 * i) w) ≡ slice_index_or (up_routes platform) i r }
    ensures down { (platform : Platform) (i : ℕ) (w : Wire) (r : Route) → i < length (links_of platform)
        → route_of (workers_of platform) (slice_index_or (plan_of platform).links (2 * i + 1) w) ≡ back (slice_index_or (up_routes platform) i r) }
    ensures credits_down { (platform : Platform) (i : ℕ) (w : Wire) (r : Route) → i < length (links_of platform)
        → route_of (workers_of platform) (slice_index_or (plan_of platform).credits (2 * i) w) ≡ back (slice_index_or (up_routes platform) i r) }
    ensures credits_up { (platform : Platform) (i : ℕ) (w : Wire) (r : Route) → i < length (links_of platform)
        → route_of (workers_of platform) (slice_index_or (plan_of platform).credits (2 * i + 1) w) ≡ slice_index_or (up_routes platform) i r }
{}

/// A port's worker has as many rings to ports as lanes leave its switch.
/// One leads to each port of the switch, in the order of the lanes. Into the worker lead as many, in the same
/// order.
pub fn a_port_has_rings_for_its_lanes()
    ensures from { (platform : Platform) (switch : Switch) (worker : WorkerId) (n : ℕ) → IsPlatform platform → IsWellPlaced platform → IsPortOf platform switch worker n
        → routes_of platform (wires_from n (plan_of platform).pairs) ≡ routes_from (lanes_of platform switch) worker }
    ensures into { (platform : Platform) (switch : Switch) (worker : WorkerId) (n : ℕ) → IsPlatform platform → IsWellPlaced platform → IsPortOf platform switch worker n
        → routes_of platform (wires_into n (plan_of platform).pairs) ≡ routes_into (lanes_of platform switch) worker }
    ensures many_from { (platform : Platform) (switch : Switch) (worker : WorkerId) (n : ℕ) → IsPlatform platform → IsWellPlaced platform → IsPortOf platform switch worker n
        → length (wires_from n (plan_of platform).pairs) ≡ outputs_of_switch platform.ports switch }
    ensures many_into { (platform : Platform) (switch : Switch) (worker : WorkerId) (n : ℕ) → IsPlatform platform → IsWellPlaced platform → IsPortOf platform switch worker n
        → length (wires_into n (plan_of platform).pairs) ≡ outputs_of_switch platform.ports switch }
{}

/// A port's worker is dealt as many ends as outputs leave its switch.
/// It is so many to put into, and so many to take from, whatever rings are laid for `pairs`.
pub fn a_port_is_dealt_an_end_for_each_lane()
    ensures outs { (platform : Platform) (switch : Switch) (worker : WorkerId) (n : ℕ) (table : List (Wire × RingName)) → IsPlatform platform → IsWellPlaced platform → IsPortOf platform switch worker n
        → map (λ r. r.0) table ≡ (plan_of platform).pairs → length (slice_index_or (dealt (length (workers_of platform)) table) n no_tags).outs ≡ outputs_of_switch platform.ports switch }
    ensures ins { (platform : Platform) (switch : Switch) (worker : WorkerId) (n : ℕ) (table : List (Wire × RingName)) → IsPlatform platform → IsWellPlaced platform → IsPortOf platform switch worker n
        → map (λ r. r.0) table ≡ (plan_of platform).pairs → length (slice_index_or (dealt (length (workers_of platform)) table) n no_tags).ins ≡ outputs_of_switch platform.ports switch }
{}

/// The worker of a port is found at its own place.
/// Upstream ports come first, then downstream ports, and no two ports have one name.
pub fn a_port_has_the_number_of_its_place()
    ensures { (platform : Platform) (k : ℕ) (d : WorkerId) → IsPlatform platform → IsWellPlaced platform → k < length platform.switches + length platform.ports
        → number_of (workers_of platform) (slice_index_or (workers_of platform) k d) ≡ Some k }
{}
