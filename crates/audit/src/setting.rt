//! What attacks are tried on.

ghost use Rattle.std.specs.Prelude.{◌≡◌, IfOk, true};
ghost use Rattle.std.specs.List.{list_all};
ghost use Rattle.fabric_core.specs.TakenOut.{NoneCanTell};
ghost use Rattle.fabric_core.specs.World.{world_of};
ghost use Rattle.platform.specs.Share.{is_guarded_port};
ghost use Rattle.audit.specs.Settings.{IsSetting};

use fab_types::NoMemory;
use fabric_core::{Fabric, Station};
use layout::Layout;
use std::alloc::Global;
use sweeps::stations;

/// A layout, its fabric at the start, and the stations of a sweep.
#[derive(Drop)]
pub(crate) struct Setting<'a> {
    pub(crate) layout: &'a Layout,
    pub(crate) start: Fabric,
    pub(crate) stations: Vec<Station>,
}

impl<'a> Setting<'a> {
    pub(crate) fn new(alloc: Global, layout: &'a Layout) -> Result<Setting<'a>, NoMemory>
        ensures setting { IfOk result IsSetting }
        ensures layout { IfOk result (λ setting. setting.layout.now ≡ layout.entry.now) }
        ensures isolated { IfOk result (λ _. list_all is_guarded_port layout.entry.now.ports ≡ true → NoneCanTell (world_of layout.entry.now)) }
    {
        let start = Fabric::new(alloc, layout)?;
        let stations = stations(alloc, layout, start.domains())?;
        Ok(Setting {
            layout,
            start,
            stations,
        })
    }
}
