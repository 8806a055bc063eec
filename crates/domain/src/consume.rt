//! The end of a packet: at its sender's first port, at its completer, or at the one that it answers.

ghost use Rattle.std.specs.Prelude.{◌≡◌, Some, None, IfOk, IfErr, IfSome, MatchOption, OnErr, OnOk};
ghost use Rattle.frame_log.specs.Descriptor.{IsCompletion};
ghost use Rattle.domain_state.specs.Ends.{conclude};

use crate::deliver::Record;
use crate::domain::Domain;
use crate::entry::Entry;
use fab_types::{Parties, PortId};
use frame_log::{Frame, FrameFault};
use request_handling::{Disposition, access_of, carriage_up, refusal_of, refusal_of_completion};

/// Why an entry was not done.
#[derive(Clone, Copy, Debug, PartialEq, Eq)]
pub enum EntryFault {
    /// The machine has no such entry after those before it.
    Illegal,
    /// Memory was refused.
    NoMemory,
}

impl Domain {
    ghost use Rattle.domain.specs.declared.entry.Entry.{Entry};
    ghost use Rattle.domain.specs.declared.entry.Entry.TheVariants.{Carry, Deliver, Refuse};
    ghost use Rattle.request_handling.specs.Carries.{carriage_end, refusal_end};
    ghost use Rattle.domain.specs.Deliveries.{HasArrived};
    ghost use Rattle.domain.specs.Domains.{Delivers, Disposes, EndsBy, IsEntryFault, IsRefused, IsStray, Makes};
    ghost use Rattle.domain_state.specs.State.{item_at};

    /// How a packet in flight ends at its sender's first port, if it ends there.
    fn refusal_end(&self, number: u64) -> Option<Disposition>
        ensures { MatchOption result (refusal_end self.now.share (item_at self.now.state.flight number) ≡ None)
            (λ d. Disposes self.now.share self.now.state (item_at self.now.state.flight number) d (refusal_end self.now.share (item_at self.now.state.flight number))) }
    {
        let Some((parties, packet)) = self.state.packet(number) else {
            return None;
        };
        match parties {
            Parties::Upward(function) => refusal_of(&self.start, function, &packet),
            Parties::Downward(_) => None,
            Parties::Answer(answerer, _) => refusal_of_completion(&self.start, answerer, &packet),
        }
    }

    /// How a packet in flight ends at its completer, if it ends there.
    fn carriage_end(&self, number: u64) -> Option<Disposition>
        ensures { MatchOption result (carriage_end self.now.share self.now.state.frames self.now.state.registers (item_at self.now.state.flight number) ≡ None)
            (λ d. Disposes self.now.share self.now.state (item_at self.now.state.flight number) d (carriage_end self.now.share self.now.state.frames self.now.state.registers (item_at self.now.state.flight number))) }
    {
        let Some((parties, packet)) = self.state.packet(number) else {
            return None;
        };
        match parties {
            Parties::Upward(function) => {
                let functions = self.state.functions();
                carriage_up(&self.start, &self.table, functions, function, &packet)
            }
            Parties::Downward(function) => access_of(self.state.functions(), function),
            Parties::Answer(..) => None,
        }
    }

    /// Ends a packet in flight so, by this entry.
    fn end_by(
        &mut self,
        entry: Entry,
        number: u64,
        disposition: Disposition,
    ) -> Result<Option<Frame>, EntryFault>
        requires { EndsBy self.old entry number disposition }
        ensures ok { IfOk result (λ sent. Makes self.old entry self.new sent) }
        ensures fault { IfErr result (λ fault. IsEntryFault self.old entry fault) }
        ensures err { OnErr result (self.new ≡ self.old) }
    {
        let Ok(sent) = self.state.conclude(&self.start, number, disposition) else {
            return Err(EntryFault::NoMemory);
        };
        self.journal.push_reserved(entry);
        Ok(sent)
    }

    /// The packet is stopped by its sender's first port. It answers `Illegal` where the machine has no
    /// such entry.
    pub(crate) fn end_refused(&mut self, number: u64) -> Result<Option<Frame>, EntryFault>
        ensures ok { IfOk result (λ sent. Makes self.old (Refuse number) self.new sent) }
        ensures fault { IfErr result (λ fault. IsEntryFault self.old (Refuse number) fault) }
        ensures err { OnErr result (self.new ≡ self.old) }
    {
        let Some(disposition) = self.refusal_end(number) else {
            return Err(EntryFault::Illegal);
        };
        self.end_by(Entry::Refuse(number), number, disposition)
    }

    /// The packet reached its completer. It answers `Illegal` where the machine has no such entry.
    pub(crate) fn end_carried(&mut self, number: u64) -> Result<Option<Frame>, EntryFault>
        ensures ok { IfOk result (λ sent. Makes self.old (Carry number) self.new sent) }
        ensures fault { IfErr result (λ fault. IsEntryFault self.old (Carry number) fault) }
        ensures err { OnErr result (self.new ≡ self.old) }
    {
        let Some(disposition) = self.carriage_end(number) else {
            return Err(EntryFault::Illegal);
        };
        self.end_by(Entry::Carry(number), number, disposition)
    }

    /// The completion reached whom it answers. Did it close a Tag, so that a record was made? It answers
    /// `Illegal` where the machine has no such entry.
    pub(crate) fn end_delivered(&mut self, number: u64) -> Result<bool, EntryFault>
        ensures ok { IfOk result (λ is_recorded. Makes self.old (Deliver number) self.new None × HasArrived (self.old.state) number (self.new.state) is_recorded) }
        ensures fault { IfErr result (λ fault. (fault ≡ EntryFault.Illegal) × IsEntryFault self.old (Deliver number) fault) }
        ensures err { OnErr result (self.new ≡ self.old) }
    {
        let Some(is_recorded) = self.state.deliver(number) else {
            return Err(EntryFault::Illegal);
        };
        self.journal.push_reserved(Entry::Deliver(number));
        Ok(is_recorded)
    }

    /// A packet is stopped by its sender's first port.
    /// It leaves flight, and a non-posted request is answered by that port with a completion for the sender,
    /// whose frame is the result. It is `Stray` where the frame is not of this domain, or its packet is not in
    /// flight or not stopped there. `NoMemory` comes only where an answer is made and memory was refused. Then
    /// nothing changes, and the frame is given back. The port is the sender's first one, which the layout tells
    /// too.
    pub fn refuse(&mut self, frame: Frame, port: PortId) -> Result<Option<Frame>, FrameFault>
        ensures ok { IfOk result (λ sent. (frame.domain ≡ (self.old.share).domain) × Makes self.old (Refuse frame.number) self.new sent) }
        ensures reply { IfOk result (λ sent. IfSome sent IsCompletion) }
        ensures fault { IfErr result (λ fault. IsRefused self.old (Refuse frame.number) frame fault) }
        ensures err { OnErr result (self.new ≡ self.old) }
    {
        let _ = port;
        if frame.domain() != self.start.domain() {
            return Err(FrameFault::Stray(frame));
        }
        match self.end_refused(frame.number()) {
            Ok(sent) => Ok(sent),
            Err(EntryFault::Illegal) => Err(FrameFault::Stray(frame)),
            Err(EntryFault::NoMemory) => Err(FrameFault::NoMemory(frame)),
        }
    }

    /// A request reached its completer. At the host a write goes where the table of its Requester ID
    /// maps its page, and a read is answered with what is stored there; a page of a peer function makes
    /// the same request to that function; without a mapping the request is counted as blocked, and a read
    /// is answered UR. At a function its register page is written, or answers a read. The frame of what
    /// follows is the result. It is `Stray` where the frame is not of this domain, or its packet is not
    /// in flight or not carried. `NoMemory` comes only where something follows and memory was refused.
    /// Then nothing changes, and the frame is given back.
    pub fn carry(&mut self, frame: Frame) -> Result<Option<Frame>, FrameFault>
        ensures ok { IfOk result (λ sent. (frame.domain ≡ (self.old.share).domain) × Makes self.old (Carry frame.number) self.new sent) }
        ensures fault { IfErr result (λ fault. IsRefused self.old (Carry frame.number) frame fault) }
        ensures err { OnErr result (self.new ≡ self.old) }
    {
        if frame.domain() != self.start.domain() {
            return Err(FrameFault::Stray(frame));
        }
        match self.end_carried(frame.number()) {
            Ok(sent) => Ok(sent),
            Err(EntryFault::Illegal) => Err(FrameFault::Stray(frame)),
            Err(EntryFault::NoMemory) => Err(FrameFault::NoMemory(frame)),
        }
    }

    /// A completion reached whom it answers. Where its Tag is open there, and its Requester ID is that
    /// of the addressee or a port made it, it closes the Tag, and the result is its record; otherwise it
    /// is counted as unexpected. It is `Stray` where the frame is not of this domain, or its packet is
    /// not in flight or no completion for anybody; then nothing changes, and the frame is given back. It
    /// takes no memory.
    pub fn deliver(&mut self, frame: Frame) -> Result<Option<Record>, FrameFault>
        ensures ok { IfOk result (λ given. (frame.domain ≡ (self.old.share).domain) × Makes self.old (Deliver frame.number) self.new None) }
        ensures delivery { IfOk result (λ given. Delivers self.old frame.number given) }
        ensures fault { IfErr result (λ fault. IsStray self.old (Deliver frame.number) frame fault) }
        ensures err { OnErr result (self.new ≡ self.old) }
    {
        if self.complete(frame)? {
            Ok(self.state.last_record())
        } else {
            Ok(None)
        }
    }

    /// The same as `deliver`, but it answers only whether there is a record.
    /// The record is the last one then. So the completion's bytes are copied once.
    pub fn complete(&mut self, frame: Frame) -> Result<bool, FrameFault>
        ensures ok { OnOk result ((frame.domain ≡ (self.old.share).domain) × Makes self.old (Deliver frame.number) self.new None) }
        ensures delivery { IfOk result (λ is_recorded. HasArrived (self.old.state) frame.number (self.new.state) is_recorded) }
        ensures fault { IfErr result (λ fault. IsStray self.old (Deliver frame.number) frame fault) }
        ensures err { OnErr result (self.new ≡ self.old) }
    {
        if frame.domain() != self.start.domain() {
            return Err(FrameFault::Stray(frame));
        }
        match self.end_delivered(frame.number()) {
            Ok(is_recorded) => Ok(is_recorded),
            Err(_) => Err(FrameFault::Stray(frame)),
        }
    }
}
