ghost use Rattle.std.specs.Prelude.{⊤, ◌≡◌, ◌<◌, [], ◌∷◌, codes, option_map};
ghost use Rattle.std.specs.Option.{SomeIff};

use bitflags::{Flag, Flags, bitflag_items};

/// The ACS controls of a downstream port (PCIe 4.0, 7.7.8.3).
/// They are the low bits of its control register.
#[derive(Clone, Copy, Debug, PartialEq, Eq, Hash)]
pub struct AcsControl(u8);

bitflag_items! {
    impl AcsControl: u8 {
        /// ACS Source Validation, V.
        const SOURCE_VALIDATION = 1;
        /// ACS Translation Blocking, B.
        const TRANSLATION_BLOCKING = 2;
        /// ACS P2P Request Redirect, R.
        const P2P_REQUEST_REDIRECT = 4;
        /// ACS P2P Completion Redirect, C.
        const P2P_COMPLETION_REDIRECT = 8;
        /// ACS Upstream Forwarding, U.
        const UPSTREAM_FORWARDING = 16;
        /// ACS P2P Egress Control, E.
        const P2P_EGRESS_CONTROL = 32;
    }
}

impl AcsControl {
    ghost use Rattle.fab_types.specs.Controls.{bits_of};

    /// The controls of these bits, if each bit is known.
    pub fn from_register(bits: u8) -> Option<AcsControl>
        ensures { SomeIff (option_map bits_of result) (bits < 64) bits }
    {
        if bits < 64 {
            Some(AcsControl(bits))
        } else {
            None
        }
    }
}

impl AcsControl {
    ghost use Rattle.fab_types.specs.Controls.{validates_source, blocks_translated, redirects_requests, redirects_completions, forwards_upstream, controls_egress};

    /// Is Source Validation set?
    pub fn validates_source(self) -> bool
        ensures { result ≡ validates_source self }
    {
        self.contains(AcsControl::SOURCE_VALIDATION)
    }

    /// Is Translation Blocking set?
    pub fn blocks_translated(self) -> bool
        ensures { result ≡ blocks_translated self }
    {
        self.contains(AcsControl::TRANSLATION_BLOCKING)
    }

    /// Is P2P Request Redirect set?
    pub fn redirects_requests(self) -> bool
        ensures { result ≡ redirects_requests self }
    {
        self.contains(AcsControl::P2P_REQUEST_REDIRECT)
    }

    /// Is P2P Completion Redirect set?
    pub fn redirects_completions(self) -> bool
        ensures { result ≡ redirects_completions self }
    {
        self.contains(AcsControl::P2P_COMPLETION_REDIRECT)
    }

    /// Is Upstream Forwarding set?
    pub fn forwards_upstream(self) -> bool
        ensures { result ≡ forwards_upstream self }
    {
        self.contains(AcsControl::UPSTREAM_FORWARDING)
    }

    /// Is P2P Egress Control set?
    pub fn controls_egress(self) -> bool
        ensures { result ≡ controls_egress self }
    {
        self.contains(AcsControl::P2P_EGRESS_CONTROL)
    }
}

/// One of the five controls by which a layout is guarded (PCIe 4.0, 6.12.1 and 7.7.8.3).
#[derive(Clone, Copy, Debug, PartialEq, Eq)]
pub enum Control {
    /// V, ACS Source Validation.
    SourceValidation,
    /// B, ACS Translation Blocking.
    TranslationBlocking,
    /// R, ACS P2P Request Redirect.
    RequestRedirect,
    /// C, ACS P2P Completion Redirect.
    CompletionRedirect,
    /// U, ACS Upstream Forwarding.
    UpstreamForwarding,
}

impl Control {
    ghost use Rattle.fab_types.specs.Controls.{is_set, control_letter, control_name, short_name};

    /// Is it set among these?
    pub fn is_set(self, controls: AcsControl) -> bool
        ensures { result ≡ is_set controls self }
    {
        match self {
            Control::SourceValidation => controls.validates_source(),
            Control::TranslationBlocking => controls.blocks_translated(),
            Control::RequestRedirect => controls.redirects_requests(),
            Control::CompletionRedirect => controls.redirects_completions(),
            Control::UpstreamForwarding => controls.forwards_upstream(),
        }
    }

    /// Its letter in the standard.
    pub fn letter(self) -> &'static str
        ensures { result.now ≡ control_letter self }
    {
        match self {
            Control::SourceValidation => "V",
            Control::TranslationBlocking => "B",
            Control::RequestRedirect => "R",
            Control::CompletionRedirect => "C",
            Control::UpstreamForwarding => "U",
        }
    }

    /// Its name in the standard, without the word ACS.
    pub fn name(self) -> &'static str
        ensures { result.now ≡ control_name self }
    {
        match self {
            Control::SourceValidation => "Source Validation",
            Control::TranslationBlocking => "Translation Blocking",
            Control::RequestRedirect => "P2P Request Redirect",
            Control::CompletionRedirect => "P2P Completion Redirect",
            Control::UpstreamForwarding => "Upstream Forwarding",
        }
    }

    /// Its name without the words ACS and P2P.
    pub fn short_name(self) -> &'static str
        ensures { result.now ≡ short_name self }
    {
        match self {
            Control::SourceValidation => "Source Validation",
            Control::TranslationBlocking => "Translation Blocking",
            Control::RequestRedirect => "Request Redirect",
            Control::CompletionRedirect => "Completion Redirect",
            Control::UpstreamForwarding => "Upstream Forwarding",
        }
    }
}

impl Flags for AcsControl {
    type Bits = u8;

    ghost exact = { ⊤ };

    ghost table = { (codes "SOURCE_VALIDATION", 1) ∷ (codes "TRANSLATION_BLOCKING", 2) ∷
        (codes "P2P_REQUEST_REDIRECT", 4) ∷ (codes "P2P_COMPLETION_REDIRECT", 8) ∷
        (codes "UPSTREAM_FORWARDING", 16) ∷ (codes "P2P_EGRESS_CONTROL", 32) ∷ [] };

    ghost set_of = { λ c. c.0 };

    fn flags<'a>() -> &'a [Flag<AcsControl>] {
        AcsControl::FLAGS
    }

    fn bits(&self) -> u8 {
        self.0
    }

    fn from_bits_retain(bits: u8) -> AcsControl {
        AcsControl(bits)
    }
}
