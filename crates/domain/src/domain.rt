//! A domain.

ghost use Rattle.std.specs.Prelude.{◌≡◌, ◌≤◌, ◌↔◌, IfOk, IfSome, IsTrue, length, Some, [], option_map};
ghost use Rattle.std.specs.Option.{option_copied};
ghost use Rattle.host_memory.specs.Pages.{page_of};
ghost use Rattle.domain.specs.Machine.{replay};
ghost use Rattle.domain_state.specs.State.{item_at, start_state};

use crate::deliver::Record;
use crate::entry::Entry;
use crate::same::same_journals;
use crate::state::State;
use domain_state::Counts;
use fab_types::{Bdf, NoMemory};
use frame_log::Log;
use function::OpenTags;
use host_table::HostTable;
use layout::Start;
use std::alloc::Global;
use std::marker::Model;
use std::sync::Arc;

/// A domain (a tenant): its state, and the journal of what it did.
/// The state is the replay of the journal. A contract sees a `DomainView`.
#[derive(Drop)]
pub struct Domain {
    pub(crate) start: Start,
    pub(crate) table: HostTable,
    pub(crate) state: State,
    pub(crate) journal: Vec<Entry>,
    /// How many entries the journal has room for, come what may.
    pub(crate) entries: usize,
}

impl Model for Domain {
    ghost use Rattle.domain.specs.Domains.{DomainView};

    ghost Value = { DomainView };

    ghost use Rattle.domain.specs.Kept.{domain_view, Kept};

    ghost view = { domain_view };

    ghost invariant = { Kept };
}

impl Domain {
    /// A domain at its start, with an empty journal. For each begin of the budget there is room for
    /// four entries of the journal, three packets in flight and one record. It answers `NoMemory` where memory was
    /// refused.
    pub fn new(alloc: Global, start: &Start, log: Arc<Log>) -> Result<Domain, NoMemory>
        ensures { IfOk result (λ domain. domain ≡ record { share = start.now; state = start_state start.now; journal = [] }) }
    {
        let room = start.budget() as usize * 4;
        Ok(Domain {
            start: start.try_clone(alloc)?,
            table: HostTable::new(alloc, start)?,
            state: State::new(alloc, start, log)?,
            journal: Vec::with_capacity(alloc, room)?,
            entries: room,
        })
    }

    /// What the layout gives the domain.
    pub fn start(&self) -> &Start
        ensures { result.now ≡ self.now.share }
    {
        &self.start
    }

    /// What the domain did, oldest first. The domain's state is what this journal leaves.
    pub fn journal(&self) -> &[Entry]
        ensures value { result.now ≡ self.now.journal }
        ensures replays { replay self.now.share self.now.journal ≡ Some self.now.state }
    {
        &self.journal
    }

    /// Is the other's journal the same, entry by entry?
    pub fn has_same_journal(&self, other: &Domain) -> bool
        ensures { IsTrue result ↔ (self.now.journal ≡ other.now.journal) }
    {
        same_journals(&self.journal, &other.journal)
    }

    /// How many begins were accepted, requests blocked, and completions unexpected.
    pub fn counts(&self) -> Counts
        ensures { result ≡ self.now.state.counts }
    {
        self.state.counts()
    }

    /// The 4,096 bytes of this frame of memory, if it is of the domain.
    pub fn frame(&self, number: u16) -> Option<&[u8]>
        ensures { option_copied result ≡ page_of self.now.state.frames number }
    {
        self.state.frame(number)
    }

    /// The 4,096 bytes of a function's register page, if the function is of the domain.
    pub fn registers(&self, function: Bdf) -> Option<&[u8]>
        ensures { option_copied result ≡ page_of self.now.state.registers function }
    {
        self.state.register_page(function)
    }

    /// The bytes of the packet that is in flight under this number.
    /// There are at most 272, and none where no packet is in flight under it.
    pub fn bytes(&self, number: u64) -> Option<&[u8]>
        ensures short { IfSome result (λ bytes. length bytes.now ≤ 272) }
        ensures value { option_copied result ≡ option_map (λ e. e.bytes) (item_at self.now.state.flight number) }
    {
        match self.state.item(number) {
            Some((_, bytes)) => Some(bytes),
            None => None,
        }
    }

    /// How many packets the domain has made, which is the number of its next one.
    pub fn made(&self) -> u64
        ensures { result ≡ length self.now.state.flight }
    {
        self.state.made()
    }

    /// The completions that were delivered, oldest first.
    pub fn records(&self) -> &[Record]
        ensures { result.now ≡ self.now.state.deliveries }
    {
        self.state.records()
    }

    /// The Tags that wait for a completion.
    pub fn open_tags(&self) -> &OpenTags
        ensures { result.now.items ≡ self.now.state.open_tags }
    {
        self.state.open_tags()
    }
}
