//! A packet that is taken where its home's machine has no case.

ghost use Rattle.std.specs.Prelude.{◌≡◌, ◌+◌, ◌≤◌, false, true, vec_capacity, vec_len, IfErr, IfOk, None, OnErr, is_some, length};
ghost use Rattle.fab_types.specs.declared.head.Parties.{Parties};
ghost use Rattle.frame_log.specs.declared.fault.FrameFault.{FrameFault};
ghost use Rattle.platform.specs.Share.{is_guarded};
ghost use Rattle.domain.specs.declared.consume.EntryFault.TheVariants as end;
ghost use Rattle.domain.specs.Domains.{is_emitting};
ghost use Rattle.domain.specs.Machine.{change};
ghost use Rattle.request_handling.specs.Takers.{takes};

use crate::consume::EntryFault;
use crate::domain::Domain;
use crate::entry::Entry;
use crate::receive::Reception;
use fab_types::{NoMemory, PacketBytes, Parties, Place};
use frame_log::{Frame, FrameFault};

/// How many entries an alien packet may lead to: its own, and those of two packets, one after another.
const ENTRIES: usize = 3;

/// Makes room for the entries that an alien packet may lead to, so that later calls need none. The result
/// is how many entries there is room for then.
fn room_for_entries(journal: &mut Vec<Entry>, entries: usize) -> Result<usize, NoMemory>
    requires room { entries ≤ vec_capacity journal.old }
    requires len { vec_len journal.old ≤ entries }
    ensures items { journal.new.items ≡ journal.old.items }
    ensures capacity { vec_capacity journal.old ≤ vec_capacity journal.new }
    ensures value { IfOk result (λ more. more ≡ entries + 3) }
    ensures room { IfOk result (λ more. more ≤ vec_capacity journal.new) }
{
    let more = entries + ENTRIES;
    journal.reserve(more - journal.len())?;
    Ok(more)
}

impl Domain {
    ghost use Rattle.domain.specs.declared.entry.Entry.TheVariants.{Alien};
    ghost use Rattle.domain.specs.Domains.{Makes};

    /// The packet was taken there. It answers `Illegal` where the machine has no such entry.
    pub(crate) fn end_alien(
        &mut self,
        place: Place,
        sender: Parties,
        bytes: &[u8],
    ) -> Result<Option<Frame>, EntryFault>
        ensures ok { IfOk result (λ sent. Makes self.old (Alien place sender bytes.now) self.new sent) }
        ensures illegal { IfErr result (λ fault. fault ≡ end.Illegal → change self.old.share self.old.state (Alien place sender bytes.now) ≡ None) }
        ensures err { OnErr result (self.new ≡ self.old) }
    {
        let (there, these) = (place, sender);
        let Some(reception) = self.reception(there, these, bytes) else {
            return Err(EntryFault::Illegal);
        };
        let Ok(entries) = room_for_entries(&mut self.journal, self.entries) else {
            return Err(EntryFault::NoMemory);
        };
        // As many packets as entries, but for the begins, which are no packets of their own.
        let packets = entries.saturating_sub(self.start.budget() as usize);
        if self.state.make_room(packets).is_err() {
            return Err(EntryFault::NoMemory);
        }
        let alloc = *self.journal.allocator();
        let Ok(copy) = PacketBytes::copy_of(alloc, bytes) else {
            return Err(EntryFault::NoMemory);
        };
        let domain = self.start.domain();
        let Ok(sent) = self.state.receive(domain, bytes, reception) else {
            return Err(EntryFault::NoMemory);
        };
        self.entries = entries;
        self.journal
            .push_reserved(Entry::Alien(place, sender, copy));
        Ok(sent)
    }

    /// A packet was taken where its home's machine has no case.
    /// That happens only in layouts that aren't guarded. It was taken at this place, and these are its bytes,
    /// as its home lends them. This is the domain that gets the entry: the owner of the Requester ID, of the
    /// frame, of the host or of the function that takes it, or its home. The frame that follows is the result,
    /// if one does. The packet's own frame ends here, while its number stays in flight at its home for ever. It
    /// answers `NoMemory` alone, where memory was refused; then nothing changes, and the frame is given back.
    pub fn alien(
        &mut self,
        place: Place,
        frame: Frame,
        bytes: &[u8],
    ) -> Result<Option<Frame>, FrameFault>
        requires unguarded { is_guarded self.old.share ≡ false }
        requires taken { takes self.old.share place ≡ true }
        requires short { length bytes.now ≤ 272 }
        ensures ok { IfOk result (λ sent. Makes self.old (Alien place frame.head.parties bytes.now) self.new sent) }
        ensures fault { IfErr result (λ fault. fault ≡ FrameFault.NoMemory frame) }
        ensures err { OnErr result (self.new ≡ self.old) }
    {
        let sender = frame.head().parties;
        match self.end_alien(place, sender, bytes) {
            Ok(sent) => Ok(sent),
            Err(EntryFault::Illegal) => unreachable!(),
            Err(EntryFault::NoMemory) => Err(FrameFault::NoMemory(frame)),
        }
    }

    /// May this domain have an entry of a packet of these bytes as alien?
    /// The entry says that it was taken at this place, whoever sent it. Where there may be one, `alien` can be
    /// called.
    pub fn has_alien(&self, place: Place, bytes: &[u8]) -> bool
        ensures legal { (sender : Parties) → result ≡ is_some (change self.now.share self.now.state (Alien place sender bytes.now)) }
        ensures unguarded { result ≡ true → is_guarded self.now.share ≡ false }
        ensures taken { result ≡ true → takes self.now.share place ≡ true }
        ensures short { result ≡ true → length bytes.now ≤ 272 }
    {
        !self.start.is_guarded() && bytes.len() <= 272 && self.takes(place)
    }

    /// Would the entry of this packet emit another? It takes no memory.
    pub fn answers_alien(&self, place: Place, sender: Parties, bytes: &[u8]) -> bool
        ensures { result ≡ is_emitting (change self.now.share self.now.state (Alien place sender bytes.now)) }
    {
        match self.reception(place, sender, bytes) {
            Some(Reception::Ends(handling)) => handling.reply.is_some(),
            Some(Reception::Arrives(_)) | None => false,
        }
    }
}
