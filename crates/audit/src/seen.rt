//! What is seen of a domain after an attack.

ghost use Rattle.std.specs.Prelude.{◌≡◌, ◌≢◌, ◌↔◌, IsTrue};
ghost use Rattle.std.specs.List.{list_any};
ghost use Rattle.std.specs.Option.{option_copied};
ghost use Rattle.audit.specs.Harms.{IsAnother, IsSeen, closing, is_answered, is_answering, is_served, is_success};
ghost use Rattle.host_memory.specs.Pages.{page_of};

use attacks::Harm;
use domain::{Domain, Entry, Record};
use fab_types::{Bdf, Origin, PacketBytes, Parties, Status, same_origin};

/// Is it another page now, or one of the two missing?
fn is_other(old: Option<&[u8]>, new: Option<&[u8]>) -> bool
    ensures { IsTrue result ↔ (option_copied new.entry ≢ option_copied old.entry) }
{
    match (old, new) {
        (Some(old), Some(new)) => old != new,
        (None, None) => false,
        _ => true,
    }
}

/// Is the frame another now?
fn differs_in_frame(old: &Domain, new: &Domain, number: u16) -> bool
    ensures { IsTrue result ↔ (page_of new.now.state.frames number ≢ page_of old.now.state.frames number) }
{
    is_other(old.frame(number), new.frame(number))
}

/// Is the register page another now?
fn differs_in_registers(old: &Domain, new: &Domain, function: Bdf) -> bool
    ensures { IsTrue result ↔ (page_of new.now.state.registers function ≢ page_of old.now.state.registers function) }
{
    is_other(old.registers(function), new.registers(function))
}

/// Is it a successful completion of a request of this function?
fn is_success(delivery: &Record, function: Bdf) -> bool
    ensures { result ≡ is_success function delivery.now }
{
    same_origin(delivery.owner(), Origin::Function(function)) && delivery.status() == Status::SC
}

/// Is it the entry of a packet with these bytes, which the function of another domain made?
fn is_served(entry: &Entry, function: Bdf, bytes: &PacketBytes) -> bool
    ensures { result ≡ is_served function bytes.now entry.now }
{
    match entry {
        Entry::Alien(_, Parties::Upward(sender), others) => *sender == function
            && *others == *bytes,
        _ => false,
    }
}

/// Has the domain an entry of the packet with these bytes, which this function of another domain made?
fn has_served(domain: &Domain, function: Bdf, bytes: &PacketBytes) -> bool
    ensures { result ≡ list_any (is_served function bytes.now) domain.now.journal }
{
    domain
        .journal()
        .iter()
        .any(|entry| is_served(entry, function, bytes))
}

/// Has this function of the domain got a successful completion?
fn has_success(domain: &Domain, function: Bdf) -> bool
    ensures { result ≡ list_any (is_success function) domain.now.state.deliveries }
{
    domain
        .records()
        .iter()
        .any(|delivery| is_success(delivery, function))
}

/// Did the function, which is of the asker, get data that the giver gave for the packet?
fn has_answer(giver: &Domain, asker: &Domain, function: Bdf, bytes: &PacketBytes) -> bool
    ensures { result ≡ is_answered function bytes.now giver.now asker.now }
{
    has_served(giver, function, bytes) && has_success(asker, function)
}

/// Is the harm that the attacker answers a read of the domain's own?
pub(crate) fn is_answering(harm: &Harm) -> bool
    ensures { result ≡ is_answering harm.now }
{
    matches!(harm, Harm::AnswersFrame(_) | Harm::AnswersRegisters(_))
}

/// Is the harm seen of the domain, which was in the old state and is in the new one?
/// The attacker is in the state that it ends in.
pub(crate) fn is_seen(
    harm: Harm,
    function: Bdf,
    bytes: &PacketBytes,
    old: &Domain,
    new: &Domain,
    attacker: &Domain,
) -> bool
    ensures { IsTrue result ↔ IsSeen harm function bytes.now old.now new.now attacker.now }
{
    match harm {
        Harm::FrameWritten(frame) => differs_in_frame(old, new, frame),
        Harm::FrameRead(_) => has_answer(new, attacker, function, bytes),
        Harm::RegistersWritten(peer) => differs_in_registers(old, new, peer),
        Harm::RegistersRead(_) => has_answer(new, attacker, function, bytes),
        // two runs show that
        Harm::TagClosed(_) => false,
        Harm::Completion => old.counts().unexpected < new.counts().unexpected,
        Harm::Counts => old.counts() != new.counts(),
        Harm::AnswersFrame(_) | Harm::AnswersRegisters(_) => {
            has_answer(attacker, new, function, bytes)
        }
    }
}

/// The completion that closed a request of this function, if one did.
fn closing(domain: &Domain, function: Bdf) -> Option<&Record>
    ensures { option_copied result ≡ closing function domain.now }
{
    domain.records().iter().find(|delivery| same_origin(
        delivery.owner(),
        Origin::Function(function),
    ))
}

/// Are there two completions, which differ?
fn is_another(own: Option<&Record>, other: Option<&Record>) -> bool
    ensures { IsTrue result ↔ IsAnother (option_copied own.entry) (option_copied other.entry) }
{
    match (own, other) {
        (Some(own), Some(other)) => own.bytes() != other.bytes(),
        _ => false,
    }
}

/// Was a request of this function closed in both, and by two different completions?
pub(crate) fn is_closed_otherwise(own: &Domain, other: &Domain, function: Bdf) -> bool
    ensures { IsTrue result ↔ IsAnother (closing function own.now) (closing function other.now) }
{
    is_another(closing(own, function), closing(other, function))
}
