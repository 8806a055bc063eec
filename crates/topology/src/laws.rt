//! Laws of the ends of links. Each is the contract of a function that does nothing.

ghost use Rattle.std.specs.Prelude.{◌≡◌, ◌≢◌, ◌+◌, ◌<◌, ◌==◌, ℕ, true, Any, Contains, IsSomeAnd, Some, length, slice_index_or};
ghost use Rattle.std.specs.List.{position};
ghost use Rattle.fab_types.specs.Id.{bus_of};
ghost use Rattle.fab_types.specs.declared.place.Direction.{Direction};
ghost use Rattle.fab_types.specs.declared.place.Way.{Way};
ghost use Rattle.fab_types.specs.declared.place.Way.TheVariants.{Up, Down};
ghost use Rattle.platform.specs.declared.parts.EndpointFunction.{EndpointFunction};
ghost use Rattle.platform.specs.declared.parts.DownstreamPort.{DownstreamPort};
ghost use Rattle.platform.specs.declared.parts.Switch.{Switch};
ghost use Rattle.layout.specs.Laws.{IsPlatform};
ghost use Rattle.layout.specs.Places.{IsWellPlaced};
ghost use Rattle.platform.specs.Platform.{Platform};
ghost use Rattle.platform.specs.Tree.{has_root, id_below, internal_bus, is_taken};
ghost use Rattle.topology.specs.declared.links.Link.{Link};
ghost use Rattle.topology.specs.declared.nodes.LinkEnd.{LinkEnd};
ghost use Rattle.topology.specs.declared.places.PortPlace.{PortPlace};
ghost use Rattle.topology.specs.Links.{link_at, links_of, sending_end, sender_of};
ghost use Rattle.topology.specs.Nodes.{downstream_end, ports_on, upstream_end};
ghost use Rattle.topology.specs.Places.{downstream_place, place_at, places_of, upstream_place};

/// Each link of a platform is the one of its lower ID.
/// No two directions are sent from one end.
pub fn links_have_ends_of_their_own()
    ensures found { (platform : Platform) (link : Link) → IsPlatform platform → Contains (links_of platform) link → link_at (links_of platform) link.lower ≡ Some link }
    ensures apart { (platform : Platform) (one other : Link) (way other_way : Way) → IsPlatform platform → Contains (links_of platform) one → Contains (links_of platform) other
        → sending_end way one ≡ sending_end other_way other → (one.lower ≡ other.lower) × (way ≡ other_way) }
    ensures directions { (platform : Platform) (one other : Direction) (end : LinkEnd) → IsPlatform platform
        → sender_of (links_of platform) one ≡ Some end → sender_of (links_of platform) other ≡ Some end → one ≡ other }
{}

/// What comes into the upstream port of a switch is sent down its link. What comes into a downstream port is
/// sent up the link of what stands below, if anything does.
pub fn ports_take_what_links_bring()
    ensures upstream { (platform : Platform) (switch : Switch) → IsPlatform platform → Contains platform.switches switch
        → (upstream_place platform switch).input ≡ sender_of (links_of platform) (record { lower = switch.id; way = Down }) }
    ensures downstream { (platform : Platform) (port : DownstreamPort) → IsPlatform platform
        → (downstream_place platform port).input ≡ sender_of (links_of platform) (record { lower = id_below port; way = Up }) }
{}

/// Output 0 of a switch or a function leads up its own link. Output k + 1 of a switch leads down through its k-th port, as
/// the layout lists those on its internal bus, to what stands below that port, and nothing else is sent from there.
pub fn outputs_lead_to_links()
    ensures up { (platform : Platform) (switch : Switch) → IsPlatform platform → Contains platform.switches switch
        → sender_of (links_of platform) (record { lower = switch.id; way = Up }) ≡ Some (record { node = (upstream_end platform switch.id).node; output = 0 }) }
    ensures function { (platform : Platform) (function : EndpointFunction) → IsPlatform platform → Contains platform.functions function
        → sender_of (links_of platform) (record { lower = function.id; way = Up }) ≡ Some (record { node = (upstream_end platform function.id).node; output = 0 }) }
    // A downstream port on a switch's internal bus sends down from the node of that switch,
    ensures node { (platform : Platform) (switch : Switch) (port : DownstreamPort) → IsPlatform platform → Contains platform.switches switch → bus_of port.id ≡ internal_bus switch
        → (downstream_end platform port).node ≡ (upstream_end platform switch.id).node }
    // by the output after the port's place on the bus,
    ensures output { (platform : Platform) (port : DownstreamPort) → IsPlatform platform → Contains platform.ports port
        → IsSomeAnd (position (λ other. other.id == port.id) (ports_on platform.ports (bus_of port.id))) (λ place. (downstream_end platform port).output ≡ 1 + place) }
    // and so each such output is that of the port at this place.
    ensures port { (platform : Platform) (switch : Switch) (k : ℕ) (d : DownstreamPort) → IsPlatform platform → Contains platform.switches switch
        → k < length (ports_on platform.ports (internal_bus switch))
        → downstream_end platform (slice_index_or (ports_on platform.ports (internal_bus switch)) k d) ≡ record { node = (upstream_end platform switch.id).node; output = 1 + k } }
    ensures below { (platform : Platform) (port : DownstreamPort) → IsPlatform platform → Contains platform.ports port
        → is_taken platform.switches platform.functions (id_below port) ≡ true
        → sender_of (links_of platform) (record { lower = id_below port; way = Down }) ≡ Some (downstream_end platform port) }
    ensures alone { (platform : Platform) (port : DownstreamPort) (direction : Direction) → IsPlatform platform → Contains platform.ports port
        → sender_of (links_of platform) direction ≡ Some (downstream_end platform port) → direction ≡ record { lower = id_below port; way = Down } }
    // Each downstream port stands on the internal bus of a switch.
    ensures switch { (platform : Platform) (port : DownstreamPort) → IsPlatform platform → Contains platform.ports port
        → Any (λ switch. internal_bus switch ≡ bus_of port.id) platform.switches }
{}

/// The place of a port is found by the port's ID.
/// No upstream port has the ID of a downstream port, and no two places are of one ID.
pub fn places_are_found()
    ensures upstream { (platform : Platform) (switch : Switch) → IsPlatform platform → Contains platform.switches switch
        → place_at (places_of platform) switch.id ≡ Some (upstream_place platform switch) }
    ensures downstream { (platform : Platform) (port : DownstreamPort) → IsPlatform platform → Contains platform.ports port
        → place_at (places_of platform) port.id ≡ Some (downstream_place platform port) }
    ensures apart { (platform : Platform) (switch : Switch) (port : DownstreamPort) → IsPlatform platform → Contains platform.switches switch → Contains platform.ports port
        → switch.id ≢ port.id }
    ensures place { (platform : Platform) (k : ℕ) (d : PortPlace) → IsPlatform platform → IsWellPlaced platform → k < length (places_of platform)
        → position (λ place. place.id == (slice_index_or (places_of platform) k d).id) (places_of platform) ≡ Some k }
{}

/// The root port sends down to the top switch, 01:00.0.
/// It does so by the one output of node 0. That switch is node 1, and sends up by its output 0.
pub fn root_sends_down()
    ensures down { (platform : Platform) → IsPlatform platform → has_root platform.switches ≡ true
        → sender_of (links_of platform) (record { lower = 0x0100; way = Down }) ≡ Some (record { node = 0; output = 0 }) }
    ensures up { (platform : Platform) → IsPlatform platform → IsWellPlaced platform → has_root platform.switches ≡ true
        → sender_of (links_of platform) (record { lower = 0x0100; way = Up }) ≡ Some (record { node = 1; output = 0 }) }
{}
