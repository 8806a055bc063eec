//! That the numbers of an entry fit their types, which contracts, that see numbers without bound, are told by a call.

ghost use Rattle.std.specs.Prelude.{ℕ};
ghost use Rattle.hex.specs.Hex.{IsBytes};
ghost use Rattle.journal_text.specs.Legible.{AreParties, EntryFits, IsAddressee, IsAnswerer, IsOrigin, IsPlace, OperationFits};

use domain::Entry;
use fab_types::{Answerer, Operation, Origin, Parties, Place};

fn origin_fits(origin: Origin)
    ensures { IsOrigin origin }
{
    match origin {
        Origin::Function(function) => {
            let _ = function.bits();
        }
        Origin::Host(domain) => {
            let _ = domain.get();
        }
    }
}

fn place_fits(place: Place)
    ensures { IsPlace place }
{
    match place {
        Place::Outbox(origin) => origin_fits(origin),
        Place::Egress(direction) | Place::Wire(direction) | Place::Ingress(direction) => {
            let _ = direction.lower.bits();
        }
    }
}

fn answerer_fits(answerer: Answerer)
    ensures { IsAnswerer answerer }
{
    match answerer {
        Answerer::Port | Answerer::Host => {}
        Answerer::Function(function) => {
            let _ = function.bits();
        }
    }
}

fn addressee_fits(addressee: Option<Origin>)
    ensures { IsAddressee addressee }
{
    match addressee {
        None => {}
        Some(origin) => origin_fits(origin),
    }
}

fn parties_fit(parties: Parties)
    ensures { AreParties parties }
{
    match parties {
        Parties::Upward(function) => {
            let _ = function.bits();
        }
        Parties::Downward(function) => {
            let _ = function.bits();
        }
        Parties::Answer(answerer, addressee) => {
            answerer_fits(answerer);
            addressee_fits(addressee);
        }
    }
}

fn bytes_fit(bytes: &[u8])
    ensures { IsBytes bytes.now }
{
    let _ = bytes;
}

fn operation_fits(operation: &Operation)
    ensures { OperationFits operation.now }
{
    match operation {
        Operation::Read(_) => {}
        Operation::Write(bytes) => bytes_fit(bytes.as_slice()),
    }
}

/// The IDs, numbers and bytes of an entry have the widths of their types. The call does nothing.
pub fn entry_fits(entry: &Entry)
    ensures { EntryFits entry.now }
{
    match entry {
        Entry::Submit(function, bytes) => {
            let _ = function.bits();
            bytes_fit(bytes.as_slice());
        }
        Entry::Tick(function) => {
            let _ = function.bits();
        }
        Entry::Mmio(access) => {
            let _ = access.function.bits();
            operation_fits(&access.operation);
        }
        Entry::Refuse(number) | Entry::Carry(number) | Entry::Deliver(number) => {
            let _number = *number;
        }
        Entry::Alien(place, sender, bytes) => {
            place_fits(*place);
            parties_fit(*sender);
            bytes_fit(bytes.as_slice());
        }
    }
}
