//! Packets that passed the tests of a port.

ghost use Rattle.std.specs.Prelude.{◌≡◌, MatchResult, None, true, false};
ghost use Rattle.std.specs.List.{list_all};
ghost use Rattle.acs.specs.Vetting.{requester_of};
ghost use Rattle.frame_log.specs.Descriptor.{IsCompletion};
ghost use Rattle.platform.specs.Share.{is_guarded_port};
ghost use Rattle.switch_output.specs.Vetted.{is_own, is_owner, may_go_on, requester_owner};

use acs::requester_of;
use bridge::Bridge;
use fab_types::{DomainId, Header};
use frame_log::Frame;
use std::marker::Model;
use std::snapshot::Snapshot;

/// A packet that may stand in a lane out of a switch, with an owner.
/// The owner is the domain that owns its Requester ID. Where all five ACS controls are set on each downstream
/// port (PCIe 4.0, 6.12), that of a request is the domain that made it. A contract sees a `Vetted`.
#[derive(Drop)]
pub struct VettedFrame {
    frame: Frame,
    owner: Option<DomainId>,
    // by whose ports the owner was looked up, for contracts alone
    bridge: Snapshot<Bridge>,
}

impl Model for VettedFrame {
    ghost use Rattle.switch_output.specs.Vetted.{IsVetted, Vetted};

    ghost Value = { Vetted };

    ghost view = { λ v. record { frame = v.frame; owner = v.owner; tree = v.bridge.value } };

    ghost invariant = { λ v. IsVetted (record { frame = v.frame; owner = v.owner; tree = v.bridge.value }) };
}

fn requester_owner(bridge: &Bridge, header: &Header) -> Option<DomainId>
    ensures { result ≡ requester_owner bridge.now.ports header.now }
{
    let requester = requester_of(header)?;
    bridge.owner(requester)
}

fn is_owner(owner: &Option<DomainId>, domain: DomainId) -> bool
    ensures { result ≡ is_owner owner.now domain }
{
    match owner {
        Some(owner) => *owner == domain,
        None => false,
    }
}

fn is_own(owner: &Option<DomainId>, frame: &Frame) -> bool
    ensures { result ≡ is_own owner.now frame.now }
{
    requester_of(&frame.head().header).is_none() || is_owner(owner, frame.domain())
}

impl VettedFrame {
    /// Looks up the domain that owns the Requester ID of the packet.
    /// There is one if the packet is a request and any domain does. Where all five controls are set on each
    /// port of the layout, a request of another domain than that owner is given back.
    pub fn new(frame: Frame, bridge: &Bridge) -> Result<VettedFrame, Frame>
        ensures { MatchResult result
            (λ vetted. (vetted.frame ≡ frame) × (vetted.tree ≡ bridge.now) × (may_go_on bridge.now.ports frame ≡ true))
            (λ back. (back ≡ frame) × (may_go_on bridge.now.ports frame ≡ false)) }
    {
        let owner = requester_owner(bridge, &frame.head().header);
        if bridge.is_guarded() && !is_own(&owner, &frame) {
            return Err(frame);
        }
        Ok(VettedFrame {
            frame,
            owner,
            bridge: Snapshot::of(bridge),
        })
    }

    /// A completion, which has no Requester ID of its own: it is whose it is.
    pub fn of_completion(frame: Frame, bridge: &Bridge) -> VettedFrame
        requires { IsCompletion frame }
        ensures { result ≡ record { frame = frame; owner = None; tree = bridge.now } }
    {
        VettedFrame {
            frame,
            owner: None,
            bridge: Snapshot::of(bridge),
        }
    }

    /// The domain that owns the Requester ID of a request, if one does. Where all five controls are set on each port, it
    /// is the domain that made the request.
    pub fn owner(&self) -> Option<DomainId>
        ensures value { result ≡ self.now.owner }
        ensures looked_up { result ≡ requester_owner self.now.tree.ports self.now.frame.head.header }
        ensures own { list_all is_guarded_port self.now.tree.ports ≡ true → is_own result self.now.frame ≡ true }
    {
        self.owner
    }

    /// The packet.
    pub fn frame(&self) -> &Frame
        ensures value { result.now ≡ self.now.frame }
        ensures vetted { may_go_on self.now.tree.ports result.now ≡ true }
    {
        &self.frame
    }

    /// The packet alone, without its owner.
    pub fn into_frame(self) -> Frame
        ensures value { result ≡ self.frame }
        ensures vetted { may_go_on self.tree.ports result ≡ true }
    {
        self.frame
    }
}
