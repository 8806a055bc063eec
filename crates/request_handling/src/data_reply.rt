//! An answer with data, before its bytes are put together.

ghost use Rattle.std.specs.Prelude.{◌≡◌, ◌%◌, ◌≤◌, length};
ghost use Rattle.tlp_view.specs.Completions.{HeadFits, completion_of};
ghost use Rattle.request_handling.specs.Answers.{answer};

use fab_types::{Answerer, NoMemory, Origin, PacketBytes, Parties};
use std::alloc::Global;
use std::marker::Model;
use tlp_view::CompletionHead;

/// An answer with data, its payload, lent from where they stand.
/// It is small, and its bytes are put together once, where they are kept. A contract sees the emission.
#[derive(Drop)]
pub struct DataReply<'a> {
    answerer: Answerer,
    addressee: Option<Origin>,
    head: CompletionHead,
    payload: &'a [u8],
}

impl<'a> Model for DataReply<'a> {
    ghost use Rattle.request_handling.specs.Emissions.{Emission};

    ghost Value = { Emission };

    ghost use Rattle.tlp_view.specs.Completions.{completion_of};
    ghost use Rattle.request_handling.specs.Answers.{IsData, answer};

    ghost view = { λ r. answer r.answerer r.addressee (completion_of r.head r.payload.now) };

    ghost invariant = { λ r. IsData r.head r.payload.now };
}

impl<'a> DataReply<'a> {
    ghost use Rattle.std.specs.Prelude.{None, IfOk, IsOk};
    ghost use Rattle.tlp_view.specs.Malformed.{malformed};
    ghost use Rattle.request_handling.specs.WellMade.{IsWellMade};

    /// These data, in whole DW and at most 256 bytes, for this addressee.
    pub(crate) fn new(
        answerer: Answerer,
        addressee: Option<Origin>,
        head: CompletionHead,
        payload: &'a [u8],
    ) -> DataReply<'a>
        requires fits { HeadFits head }
        requires whole { length payload.now % 4 ≡ 0 }
        requires small { length payload.now ≤ 256 }
        ensures { result ≡ answer answerer addressee (completion_of head payload.now) }
    {
        DataReply {
            answerer,
            addressee,
            head,
            payload,
        }
    }

    /// Who answers whom.
    pub fn parties(&self) -> Parties
        ensures { result ≡ self.now.parties }
    {
        Parties::Answer(self.answerer, self.addressee)
    }

    /// The packet's bytes, at most 268. It answers `NoMemory` where memory was refused; at most 16 bytes ask for none.
    pub fn bytes(&self, alloc: Global) -> Result<PacketBytes, NoMemory>
        ensures value { IfOk result (λ bytes. bytes ≡ self.now.bytes) }
        ensures well_formed { IfOk result (λ bytes. malformed bytes ≡ None) }
        ensures well_made { IfOk result (λ bytes. IsWellMade self.now.parties bytes) }
        ensures short { IfOk result (λ bytes. length bytes ≤ 268) }
        ensures few { length self.now.bytes ≤ 16 → IsOk result }
    {
        let header = self.head.header(self.payload.len() / 4);
        PacketBytes::joined(alloc, &header, self.payload)
    }
}
