//! The functions of a domain, found by their IDs.

ghost use Rattle.std.specs.Prelude.{◌≡◌, ◌<◌, ◌==◌, IfOk, length};
ghost use Rattle.std.specs.List.{position};
ghost use Rattle.function.specs.Accesses.{IsAccess, accessed};
ghost use Rattle.function.specs.Closings.{closed_by};
ghost use Rattle.function.specs.Functions.{IsBusTable, first_on_bus, page_at, with_page};
ghost use Rattle.function.specs.Plans.{PlanFits, page_after};

use crate::function::Function;
use crate::plan::Plan;
use crate::tags::OpenTag;
use fab_types::{Bdf, NoMemory, Status};
use std::alloc::Global;
use std::marker::Model;
use tlp_view::TlpView;

/// Functions in the order in which they were given.
/// A contract sees the ID and the bytes of each.
#[derive(Drop)]
pub struct Functions {
    functions: Vec<Function>,
    // by bus number: where the first function of that bus stands
    buses: Vec<Option<usize>>,
}

impl Model for Functions {
    ghost use Rattle.std.specs.Prelude.{ℕ, List};

    ghost Value = { List (ℕ × List ℕ) };

    ghost use Rattle.function.specs.Functions.{IsBusTable};

    ghost view = { λ f. f.functions.items };

    ghost invariant = { λ f. IsBusTable f.functions.items f.buses.items };
}

fn first_on_bus(functions: &[Function], bus: u8) -> Option<usize>
    ensures { result ≡ first_on_bus functions.now bus }
{
    functions
        .iter()
        .position(|function| function.id().bus() == bus)
}

fn bus_table(alloc: Global, functions: &[Function]) -> Result<Vec<Option<usize>>, NoMemory>
    ensures { IfOk result (λ table. IsBusTable functions.now table.items) }
{
    Ok(
        (0..=u8::MAX)
            .map(|bus| first_on_bus(functions, bus))
            .collect(alloc)?,
    )
}

fn position_of(functions: &[Function], id: Bdf) -> Option<usize>
    ensures { result ≡ position (λ function. function.0 == id) functions.now }
{
    functions.iter().position(|function| function.id() == id)
}

impl Functions {
    /// These functions. It answers `NoMemory` where memory was refused; no other call takes memory.
    pub fn new(alloc: Global, functions: Vec<Function>) -> Result<Functions, NoMemory>
        ensures { IfOk result (λ made. made ≡ functions.items) }
    {
        let buses = bus_table(alloc, &functions)?;
        Ok(Functions { functions, buses })
    }

    /// Lends the functions.
    pub fn as_slice(&self) -> &[Function]
        ensures { result.now ≡ self.now }
    {
        &self.functions
    }

    /// Where the first function of this bus stands.
    fn first_on_bus(&self, bus: u8) -> Option<usize>
        ensures { result ≡ first_on_bus self.now bus }
    {
        self.buses[usize::from(bus)]
    }

    /// Where the first function of this ID stands.
    pub fn place(&self, id: Bdf) -> Option<usize>
        ensures { result ≡ position (λ function. function.0 == id) self.now }
    {
        let Some(at) = self.first_on_bus(id.bus()) else {
            return None;
        };
        if self.functions[at].id() == id {
            Some(at)
        } else {
            // (in a layout no two functions share a bus, so that nothing has this ID)
            position_of(&self.functions, id)
        }
    }

    /// A memory write to the page of the function at this place. A read changes nothing.
    pub fn access(&mut self, at: usize, request: &TlpView)
        requires there { at < length self.old }
        requires access { IsAccess request.now }
        ensures { self.new ≡ with_page self.old at (accessed (page_at self.old at) request.now) }
    {
        self.functions[at].change(request);
    }

    /// A tick with this plan of the function at this place.
    pub fn perform(&mut self, at: usize, plan: &Plan)
        requires there { at < length self.old }
        requires fits { PlanFits plan.now (page_at self.old at) }
        ensures { self.new ≡ with_page self.old at (page_after plan.now (page_at self.old at)) }
    {
        self.functions[at].perform(plan);
    }

    /// A completion has closed this Tag of the function at this place.
    pub fn completed(&mut self, at: usize, tag: OpenTag, status: Status, payload: &[u8])
        requires there { at < length self.old }
        ensures { self.new ≡ with_page self.old at (closed_by (page_at self.old at) tag.usage status payload.now) }
    {
        self.functions[at].completed(tag, status, payload);
    }
}
