//! Whether a layout is guarded: whether each downstream port has all five ACS controls set (PCIe 4.0, 7.7.8.3).

ghost use Rattle.std.specs.Prelude.{◌≡◌};
ghost use Rattle.std.specs.List.{list_all};
ghost use Rattle.platform.specs.Share.{is_guarded_port};

use crate::parts::DownstreamPort;

fn is_guarded_port(port: &DownstreamPort) -> bool
    ensures { result ≡ is_guarded_port port.now }
{
    let controls = port.controls;
    controls.validates_source()
        && controls.blocks_translated()
        && controls.redirects_requests()
        && controls.redirects_completions()
        && controls.forwards_upstream()
}

/// Are all five controls set on each of these ports?
pub fn are_guarded(ports: &[DownstreamPort]) -> bool
    ensures { result ≡ list_all is_guarded_port ports.now }
{
    ports.iter().all(|port| is_guarded_port(port))
}
