//! Ports that have a control clear.

ghost use Rattle.std.specs.Prelude.{◌≡◌};
ghost use Rattle.attacks.specs.Controls.{is_clear};

use fab_types::{Control, PortId};
use platform::DownstreamPort;

/// Is the control clear at one of these ports, that of this ID?
pub fn is_clear(ports: &[DownstreamPort], id: PortId, control: Control) -> bool
    ensures { result ≡ is_clear ports.now id control }
{
    ports
        .iter()
        .any(|port| port.id == id && !control.is_set(port.controls))
}
