//! How a packet in flight ends: what that does with the domain's state, and what answers it.

ghost use Rattle.std.specs.Prelude.{◌≡◌, None};
ghost use Rattle.fab_types.specs.declared.head.Parties.TheVariants.{Downward};
ghost use Rattle.tlp_view.specs.Requests.{packet_bytes};
ghost use Rattle.request_handling.specs.Answers.{IsReadAs, answer, made_bytes};
ghost use Rattle.request_handling.specs.AtFunctions.{discarded};

use fab_types::{Answerer, Bdf, Origin, Parties};
use std::marker::Model;
use tlp_view::{CplBuf, RequestBuf};

/// What the end of a packet does with the state.
#[derive(Clone, Copy)]
pub enum Effect {
    /// Nothing.
    Leave,
    /// It counts the request: no page is mapped.
    Block,
    /// It writes the enabled bytes to this frame, from this byte on.
    Store(u16, usize),
    /// It adds its operand to the bytes of this frame, from this byte on.
    Add(u16, usize),
    /// It writes or reads this function's register page.
    Access(Bdf),
}

/// A packet that the domain itself makes.
#[derive(Drop)]
pub enum Made {
    /// A completion.
    Completion(CplBuf),
    /// A request.
    Request(RequestBuf),
}

impl Made {
    ghost use Rattle.std.specs.Prelude.{◌≤◌, length};
    ghost use Rattle.tlp_view.specs.Malformed.{malformed};

    fn bytes(&self) -> &[u8]
        ensures value { result.now ≡ made_bytes self.now }
        ensures well_formed { malformed result.now ≡ None }
        ensures read { IsReadAs self.now result.now }
        ensures short { length result.now ≤ 272 }
    {
        match self {
            Made::Completion(packet) => packet.bytes(),
            Made::Request(packet) => packet.bytes(),
        }
    }
}

/// What follows from a packet that ends.
/// It is its answer, or the same request to a peer. A contract sees the emission.
#[derive(Drop)]
pub struct Reply {
    parties: Parties,
    packet: Made,
}

impl Model for Reply {
    ghost use Rattle.request_handling.specs.Emissions.{Emission};
    ghost use Rattle.request_handling.specs.Answers.{IsReply, made_bytes};

    ghost Value = { Emission };

    ghost view = { λ r. record { parties = r.parties; bytes = made_bytes r.packet } };

    ghost invariant = { λ r. IsReply r.parties r.packet };
}

impl Reply {
    ghost use Rattle.std.specs.Prelude.{◌≤◌, length};
    ghost use Rattle.tlp_view.specs.Malformed.{malformed};
    ghost use Rattle.request_handling.specs.WellMade.{IsWellMade};
    ghost use Rattle.function.specs.Accesses.{IsAccess};

    /// A completion for this addressee.
    pub(crate) fn answer(answerer: Answerer, addressee: Option<Origin>, packet: CplBuf) -> Reply
        ensures { result ≡ answer answerer addressee packet }
    {
        Reply {
            parties: Parties::Answer(answerer, addressee),
            packet: Made::Completion(packet),
        }
    }

    /// A request to this function.
    pub(crate) fn request(function: Bdf, packet: RequestBuf) -> Reply
        requires { IsAccess packet }
        ensures { result ≡ record { parties = Downward function; bytes = packet_bytes packet } }
    {
        Reply {
            parties: Parties::Downward(function),
            packet: Made::Request(packet),
        }
    }

    /// Who answers whom, or to which function the request goes.
    pub fn parties(&self) -> Parties
        ensures { result ≡ self.now.parties }
    {
        self.parties
    }

    /// The packet's bytes, at most 272.
    pub fn bytes(&self) -> &[u8]
        ensures value { result.now ≡ self.now.bytes }
        ensures well_formed { malformed result.now ≡ None }
        ensures well_made { IsWellMade self.now.parties result.now }
        ensures short { length result.now ≤ 272 }
    {
        self.packet.bytes()
    }
}

/// How a packet ends.
#[derive(Drop)]
pub struct Handling {
    /// What that does with the state.
    pub effect: Effect,
    /// What follows from it, if anything.
    pub reply: Option<Reply>,
}

/// Nothing happens, and nothing answers.
pub fn discarded() -> Handling
    ensures { result ≡ discarded }
{
    Handling {
        effect: Effect::Leave,
        reply: None,
    }
}
