/// The byte enables of a memory request (PCIe 4.0, 2.2.5). Bit `i` of a field stands for byte `i` of
/// its DW.
#[derive(Clone, Copy, Debug, PartialEq, Eq)]
pub struct Enables {
    /// First DW Byte Enables, 4 bits.
    pub first: u8,
    /// Last DW Byte Enables, 4 bits; 0 for a request of one DW.
    pub last: u8,
}

impl Enables {
    ghost use Rattle.std.specs.Prelude.{◌≡◌, ◌<◌, ℕ, false};
    ghost use Rattle.tlp_view.specs.Malformed.{has_bad_enables};
    ghost use Rattle.tlp_view.specs.Requests.{all_enabled};

    /// All bytes of so many DW.
    pub fn all(count: u16) -> Enables
        requires { 0 < count }
        ensures value { result ≡ all_enabled count }
        ensures fine { (address : ℕ) → has_bad_enables count address result.first result.last ≡ false }
    {
        Enables {
            first: 15,
            last: if count == 1 { 0 } else { 15 },
        }
    }
}
