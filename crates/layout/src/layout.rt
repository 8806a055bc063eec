//! A platform, as the lines of a layout say it.

ghost use Rattle.std.specs.Prelude.{◌≡◌, IfOk, true};
ghost use Rattle.std.specs.List.{list_all};
ghost use Rattle.platform.specs.Platform.{no_lines};

use crate::map_lines::MapLines;
use fab_types::NoMemory;
use platform::{BudgetLine, CreditLine, DownstreamPort, EndpointFunction, LayoutVersion, Switch};
use std::alloc::Global;
use std::marker::Model;

/// A platform that was read from a layout text.
/// It has switches, downstream ports, functions, and what each domain may reach.
#[derive(Drop)]
pub struct Layout {
    pub(crate) version: LayoutVersion,
    pub(crate) frames: u16,
    pub(crate) switches: Vec<Switch>,
    pub(crate) ports: Vec<DownstreamPort>,
    pub(crate) functions: Vec<EndpointFunction>,
    pub(crate) maps: MapLines,
    pub(crate) budgets: Vec<BudgetLine>,
    pub(crate) credits: Vec<CreditLine>,
}

impl Model for Layout {
    ghost use Rattle.platform.specs.Platform.{Platform};

    ghost Value = { Platform };

    ghost use Rattle.layout.specs.Layouts.{platform_of, IsLayout};

    ghost view = { platform_of };

    ghost invariant = { IsLayout };
}

impl Layout {
    ghost use Rattle.layout.specs.Laws.{IsPlatform, is_good_budget};
    ghost use Rattle.layout.specs.Places.{IsWellPlaced};

    /// The platform of no lines, in a text of this version. It answers `NoMemory` where memory was refused.
    pub(crate) fn empty(alloc: Global, version: LayoutVersion) -> Result<Layout, NoMemory>
        ensures { IfOk result (λ layout. layout ≡ no_lines version) }
    {
        Ok(Layout {
            version,
            frames: 0,
            switches: Vec::new(alloc),
            ports: Vec::new(alloc),
            functions: Vec::new(alloc),
            maps: MapLines::new(alloc)?,
            budgets: Vec::new(alloc),
            credits: Vec::new(alloc),
        })
    }

    /// The version that the first line says.
    pub fn version(&self) -> LayoutVersion
        ensures { result ≡ self.now.version }
    {
        self.version
    }

    /// How many frames of memory there are.
    pub(crate) fn frames(&self) -> u16
        ensures { result ≡ self.now.frames }
    {
        self.frames
    }

    /// All switches, in the order of their lines.
    pub fn switches(&self) -> &[Switch]
        ensures value { result.now ≡ self.now.switches }
        ensures laws { IsPlatform self.now }
        ensures places { IsWellPlaced self.now }
    {
        &self.switches
    }

    /// All downstream ports, in the order of their lines.
    pub fn ports(&self) -> &[DownstreamPort]
        ensures value { result.now ≡ self.now.ports }
        ensures laws { IsPlatform self.now }
        ensures places { IsWellPlaced self.now }
    {
        &self.ports
    }

    /// All functions, in the order of their lines.
    pub fn functions(&self) -> &[EndpointFunction]
        ensures value { result.now ≡ self.now.functions }
        ensures laws { IsPlatform self.now }
        ensures places { IsWellPlaced self.now }
    {
        &self.functions
    }

    /// All mappings.
    pub(crate) fn maps(&self) -> &MapLines
        ensures value { result.now ≡ self.now.maps }
        ensures laws { IsPlatform self.now }
    {
        &self.maps
    }

    pub(crate) fn budgets(&self) -> &[BudgetLine]
        ensures value { result.now ≡ self.now.budgets }
        ensures good { list_all is_good_budget result.now ≡ true }
    {
        &self.budgets
    }

    pub(crate) fn credit_lines(&self) -> &[CreditLine]
        ensures { result.now ≡ self.now.credits }
    {
        &self.credits
    }
}
