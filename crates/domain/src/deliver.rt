//! The delivery of a completion to the function or host that it goes to.

ghost use Rattle.std.specs.Prelude.{◌≡◌, ◌≤◌, length, None, IfSome, option_map};
ghost use Rattle.tlp_view.specs.Malformed.{malformed};
ghost use Rattle.domain.specs.Deliveries.{arrival_by, arrival_for, arrival_of, arriving_at, is_awaited, is_port};
ghost use Rattle.request_handling.specs.WellMade.{IsWellMade};

use crate::copies::copied;
use arrayvec::ArrayVec;
use fab_types::{Answerer, Origin, Parties, Status};
use function::OpenTags;
use std::marker::Model;
use tlp_view::TlpView;

/// A completion that was delivered. It holds a copy of the packet in itself. A contract sees a
/// `Delivery`.
#[derive(Drop)]
pub struct Record {
    owner: Origin,
    tag: u8,
    status: Status,
    bytes: ArrayVec<u8, 272>,
}

impl Model for Record {
    ghost use Rattle.domain_state.specs.State.{Delivery};

    ghost Value = { Delivery };

    ghost use Rattle.domain.specs.Records.{delivery_in};

    ghost view = { delivery_in };

    ghost use Rattle.std.specs.Prelude.{◌≡◌, None};
    ghost use Rattle.tlp_view.specs.Malformed.{malformed};

    ghost invariant = { λ r. malformed r.bytes.items ≡ None };
}

impl Record {
    /// The function or host whose request was completed.
    pub fn owner(&self) -> Origin
        ensures { result ≡ self.now.owner }
    {
        self.owner
    }

    /// The Tag that it closed.
    pub fn tag(&self) -> u8
        ensures { result ≡ self.now.tag }
    {
        self.tag
    }

    /// The status of the completion (PCIe 4.0, 2.2.9).
    pub fn status(&self) -> Status
        ensures { result ≡ self.now.status }
    {
        self.status
    }

    /// The whole completion, header and payload.
    pub fn bytes(&self) -> &[u8]
        ensures value { result.now ≡ self.now.bytes }
        ensures well_formed { malformed result.now ≡ None }
    {
        self.bytes.as_slice()
    }

    /// The same record once more. No caller outside may double one.
    pub(crate) fn copy(&self) -> Record
        ensures { result ≡ self.now }
    {
        Record {
            owner: self.owner,
            tag: self.tag,
            status: self.status,
            bytes: copied(self.bytes.as_slice()),
        }
    }
}

/// What a completion in flight is to its addressee. Its record is made where it is kept.
#[derive(Clone, Copy)]
pub(crate) struct Arriving {
    pub(crate) owner: Origin,
    pub(crate) tag: u8,
    pub(crate) status: Status,
    pub(crate) is_awaited: bool,
}

impl Arriving {
    /// The record of a completion of these bytes.
    pub(crate) fn record(&self, bytes: &[u8]) -> Record
        requires short { length bytes.now ≤ 272 }
        requires well_formed { malformed bytes.now ≡ None }
        ensures { result ≡ (arrival_by self.now bytes.now).delivery }
    {
        Record {
            owner: self.owner,
            tag: self.tag,
            status: self.status,
            bytes: copied(bytes),
        }
    }
}

fn is_port(answerer: Answerer) -> bool
    ensures { result ≡ is_port answerer }
{
    matches!(answerer, Answerer::Port)
}

fn is_awaited(tags: &OpenTags, answerer: Answerer, owner: Origin, view: &TlpView) -> bool
    ensures { result ≡ is_awaited tags.now.items answerer owner view.now }
{
    let same = owner;
    let addressee = same.id();
    tags.is_open(owner, view.tag()) && (is_port(answerer) || view.requester() == addressee)
}

/// A well-formed completion of this status at this function or host.
pub(crate) fn arriving_at(
    tags: &OpenTags,
    view: &TlpView,
    answerer: Answerer,
    owner: Origin,
    status: Status,
) -> Arriving
    ensures { result ≡ arriving_at tags.now.items view.now answerer owner status }
{
    let same = owner;
    let is_awaited = is_awaited(tags, answerer, same, view);
    Arriving {
        owner,
        tag: view.tag(),
        status,
        is_awaited,
    }
}

/// What a well-formed packet is to its addressee: nothing if it is no completion, which alone has a status.
fn arriving_for(
    tags: &OpenTags,
    bytes: &[u8],
    answerer: Answerer,
    addressee: Option<Origin>,
) -> Option<Arriving>
    requires { malformed bytes.now ≡ None }
    ensures { option_map (λ a. arrival_by a bytes.now) result ≡ arrival_for tags.now.items bytes.now answerer addressee }
{
    let owner = addressee?;
    let view = TlpView::again(bytes);
    let status = view.status()?;
    Some(arriving_at(tags, &view, answerer, owner, status))
}

/// What a packet of these parties is to the one that it goes to.
/// None where it is no completion for somebody.
pub(crate) fn arriving_of(tags: &OpenTags, parties: Parties, bytes: &[u8]) -> Option<Arriving>
    requires { IsWellMade parties bytes.now }
    ensures value { option_map (λ a. arrival_by a bytes.now) result ≡ arrival_of tags.now.items bytes.now parties }
    ensures well_formed { IfSome result (λ a. malformed bytes.now ≡ None) }
{
    match parties {
        Parties::Answer(answerer, addressee) => arriving_for(tags, bytes, answerer, addressee),
        Parties::Upward(_) | Parties::Downward(_) => None,
    }
}
