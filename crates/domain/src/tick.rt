//! A tick of a function's DMA program.

ghost use Rattle.std.specs.Prelude.{◌≡◌, ℕ, List, Err, IfOk, IfSome, None, OnErr, Some, option_map};
ghost use Rattle.std.specs.Result.{IsOkUnless};
ghost use Rattle.fab_types.specs.declared.faults.begin.TickFault.{TickFault};
ghost use Rattle.function.specs.Plans.{PlanFits, plan_of};
ghost use Rattle.host_memory.specs.Pages.{page_of};
ghost use Rattle.domain.specs.Ticks.{tick_fault};

use crate::domain::Domain;
use crate::entry::Entry;
use fab_types::{Bdf, TickFault};
use frame_log::Frame;

impl Domain {
    ghost use Rattle.domain.specs.declared.entry.Entry.TheVariants.{Tick};
    ghost use Rattle.domain.specs.Domains.{Emits, Makes};

    /// The first refusal that applies to a tick of this function, memory aside.
    fn tick_fault(&self, function: Bdf) -> Option<TickFault>
        ensures { result ≡ tick_fault self.now.share self.now.state function }
    {
        if !self.start.owns_function(function) {
            Some(TickFault::NoFunction)
        } else if self.state.counts().begins >= self.start.budget() {
            Some(TickFault::BudgetSpent)
        } else {
            None
        }
    }

    /// The program of a function of this domain does its next line.
    /// It does so if it runs; a tick in which nothing happens is a begin too. The frame is that of the request
    /// which the line sends, if it sends one. It is refused with the first fault that applies: `NoFunction`,
    /// `BudgetSpent`; or `NoMemory` where memory was refused to a line that sends. Then nothing changes.
    pub fn tick(&mut self, function: Bdf) -> Result<Option<Frame>, TickFault>
        ensures ok { IfOk result (λ sent. Makes self.old (Tick function) self.new sent) }

        // Which refusal it is: the first that applies. Without one only memory may be refused.
        ensures refused { (fault : TickFault) → tick_fault self.old.share self.old.state function ≡ Some fault → result ≡ Err fault }
        ensures accepted { tick_fault self.old.share self.old.state function ≡ None → IsOkUnless result TickFault.NoMemory }
        // Memory is refused only to a line that sends.
        ensures memory { result ≡ Err TickFault.NoMemory → Emits self.old (Tick function) }
        ensures err { OnErr result (self.new ≡ self.old) }
    {
        if let Some(fault) = self.tick_fault(function) {
            return Err(fault);
        }
        let planned = self.state.planned(function);
        let Some(plan) = &planned else {
            unreachable!();
        };
        let Ok(sent) = self.state.tick(self.start.domain(), function, plan) else {
            return Err(TickFault::NoMemory);
        };
        self.journal.push_reserved(Entry::Tick(function));
        Ok(sent)
    }
}
