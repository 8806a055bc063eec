//! The ACS controls of a port, by their letters.

ghost use Rattle.std.specs.Prelude.{◌≡◌};
ghost use Rattle.drawing.specs.Controls.{egress_in, letter_in};

use fab_types::{AcsControl, Control};
use std::fmt;

/// The letter where the control is set among these, and nothing where it is clear.
fn letter_in(controls: AcsControl, control: Control) -> &'static str
    ensures { result.now ≡ letter_in controls control }
{
    if control.is_set(controls) {
        control.letter()
    } else {
        ""
    }
}

/// The same of ACS P2P Egress Control.
fn egress_in(controls: AcsControl) -> &'static str
    ensures { result.now ≡ egress_in controls }
{
    if controls.controls_egress() { "E" } else { "" }
}

/// The letters of the controls that are set.
#[derive(Clone, Copy)]
pub struct Letters(pub AcsControl);

impl fmt::Display for Letters {
    ghost use Rattle.std.specs.Prelude.{Some};
    ghost use Rattle.drawing.specs.Controls.{letters_of};

    ghost output = { λ letters. Some (letters_of letters.0) };

    /// As `VBRCU`.
    fn fmt<W: fmt::Write>(&self, f: &mut fmt::Formatter<W>) -> fmt::Result {
        let controls = self.0;
        let source = letter_in(controls, Control::SourceValidation);
        let translation = letter_in(controls, Control::TranslationBlocking);
        let requests = letter_in(controls, Control::RequestRedirect);
        let completions = letter_in(controls, Control::CompletionRedirect);
        let upstream = letter_in(controls, Control::UpstreamForwarding);
        let egress = egress_in(controls);
        write!(f, "{source}{translation}{requests}")?;
        write!(f, "{completions}{upstream}{egress}")
    }
}
