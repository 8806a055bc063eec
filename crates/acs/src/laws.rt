//! Laws of the definitions alone.

ghost use Rattle.std.specs.Prelude.{◌≡◌, ◌≢◌, ◌⊎◌, ℕ, List, Bool, true, Ok, Some};
ghost use Rattle.fab_types.specs.declared.head.Header.{Header};
ghost use Rattle.fab_types.specs.declared.head.Header.TheVariants as header;
ghost use Rattle.platform.specs.declared.parts.DownstreamPort.{DownstreamPort};
ghost use Rattle.platform.specs.declared.parts.Switch.{Switch};
ghost use Rattle.platform.specs.Share.{is_guarded_port};
ghost use Rattle.platform.specs.Tree.{port_at};
ghost use Rattle.bridge.specs.declared.route.Route.{Route};
ghost use Rattle.bridge.specs.declared.route.Route.TheVariants as to;
ghost use Rattle.bridge.specs.Routes.{route_of};
ghost use Rattle.acs.specs.Vetting.{is_request};
ghost use Rattle.acs.specs.Redirection.{GoesDirectly, redirected};

/// Where a port with all five controls set lets a request go (PCIe 4.0, 6.12.1.1).
///
/// - `anywhere`: whatever its route was, it goes up, or to nobody, or to the port of its route if the vector
///   lets requests through to that.
/// - `routed`: by the route that it has from that port it goes up, or so to the port of its route, and not to
///   nobody.
pub fn guarded_requests_go_up()
    ensures anywhere { (port : DownstreamPort) (route : Route) (header : Header) → is_guarded_port port ≡ true → is_request header ≡ true
        → (redirected port route header ≡ Ok to.Up) ⊎ (redirected port route header ≡ Ok to.Nobody) ⊎ GoesDirectly port route header }
    ensures routed { (switches : List Switch) (ports : List DownstreamPort) (ingress : ℕ) (port : DownstreamPort) (header : Header)
        → port_at ports ingress ≡ Some port → is_guarded_port port ≡ true → is_request header ≡ true
        → (redirected port (route_of switches ports ingress header) header ≡ Ok to.Up) ⊎ GoesDirectly port (route_of switches ports ingress header) header }
{}

/// With all five controls set no completion without Relaxed Ordering goes to another port.
///
/// - `relaxed`: one that goes to another port has Relaxed Ordering set (PCIe 4.0, 6.12.5), and goes to the port
///   of its route.
/// - `back`: such a port lets no packet go back.
pub fn guarded_completions_go_up()
    ensures relaxed { (port : DownstreamPort) (route : Route) (target : ℕ) (relaxed_ordering : Bool) (other : ℕ) → is_guarded_port port ≡ true
        → redirected port route (header.Completion target relaxed_ordering) ≡ Ok (to.Port other) → (relaxed_ordering ≡ true) × (route ≡ to.Port other) }
    ensures back { (port : DownstreamPort) (route : Route) (header : Header) → is_guarded_port port ≡ true → redirected port route header ≢ Ok to.OwnEgress }
{}
