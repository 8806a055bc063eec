//! A packet's bytes, read once.

ghost use Rattle.std.specs.Prelude.{◌≡◌, MatchOption, IsSome, None, is_none};
ghost use Rattle.tlp_view.specs.Bytes.{packet_of};
ghost use Rattle.tlp_view.specs.Malformed.{malformed};

use crate::view::TlpView;
use std::marker::Model;

/// The bytes of a packet, well formed or not, with what was read of them.
/// So whoever is given it need not read them again. A contract sees the bytes.
#[derive(Debug, Drop)]
pub struct ReadPacket<'a> {
    bytes: &'a [u8],
    view: Option<TlpView<'a>>,
}

impl<'a> Model for ReadPacket<'a> {
    ghost use Rattle.std.specs.Prelude.{List, ℕ};

    ghost Value = { List ℕ };

    ghost use Rattle.tlp_view.specs.View.{IsWhatIsRead};

    ghost view = { λ r. r.bytes.now };

    ghost invariant = { λ r. IsWhatIsRead r.bytes.now r.view };
}

impl<'a> ReadPacket<'a> {
    /// Reads these bytes.
    pub fn new(bytes: &'a [u8]) -> ReadPacket<'a>
        ensures { result ≡ bytes.now }
    {
        let view = TlpView::read(bytes).ok();
        ReadPacket { bytes, view }
    }

    /// The same of bytes of which it is known whether they are well formed.
    /// It isn't tested again.
    pub fn again(bytes: &'a [u8], is_well_formed: bool) -> ReadPacket<'a>
        requires { is_well_formed ≡ is_none (malformed bytes.now) }
        ensures { result ≡ bytes.now }
    {
        let view = if is_well_formed {
            Some(TlpView::again(bytes))
        } else {
            None
        };
        ReadPacket { bytes, view }
    }

    /// Are the bytes well formed?
    pub fn is_well_formed(&self) -> bool
        ensures { result ≡ is_none (malformed self.now) }
    {
        self.view.is_some()
    }

    /// The bytes that were read.
    pub fn bytes(&self) -> &'a [u8]
        ensures { result.now ≡ self.now }
    {
        self.bytes
    }

    /// The packet that the bytes are; `None` exactly where they are none.
    pub fn view(&self) -> Option<&TlpView<'a>>
        ensures { MatchOption result (IsSome (malformed self.now))
            (λ view. (malformed self.now ≡ None) × (view.now ≡ packet_of self.now)) }
    {
        self.view.as_ref()
    }
}
