//! The ACS controls that a port has in a layout.

ghost use Rattle.std.specs.Prelude.{◌≡◌, ◌==◌};
ghost use Rattle.std.specs.List.{list_any};
ghost use Rattle.import.specs.Controls.{control_register, controls_of, has_further_controls, has_vector, loses_egress, plain_controls, sets_egress, without_redirect};

use fab_types::Bdf;
use layout_line::EgressText;
use lspci::{Acs, ConfigSpace};

/// The ACS control register, or 0 where none is shown.
fn control_register(acs: Acs) -> u32
    ensures { result ≡ control_register acs }
{
    match acs {
        Acs::Absent | Acs::Unknown => 0,
        Acs::Standard { control, .. } => u32::from(control),
        Acs::Wide { control, .. } => control,
    }
}

/// Is ACS P2P Egress Control set?
pub fn sets_egress(space: &ConfigSpace<'_>) -> bool
    ensures { result ≡ sets_egress space.now.bytes.now }
{
    control_register(space.acs()) / 32 % 2 == 1
}

/// Are controls set besides V, B, R, C, U and E?
pub fn has_further_controls(space: &ConfigSpace<'_>) -> bool
    ensures { result ≡ has_further_controls space.now.bytes.now }
{
    control_register(space.acs()) >= 64
}

/// Has the port of this ID one of these vectors?
fn has_vector(vectors: &[EgressText], id: Bdf) -> bool
    ensures { result ≡ has_vector vectors.now id }
{
    vectors.iter().any(|vector| vector.port == id)
}

/// Controls egress in the machine, but not in a layout with these vectors?
pub fn loses_egress(space: &ConfigSpace<'_>, vectors: &[EgressText], id: Bdf) -> bool
    ensures { result ≡ loses_egress space.now.bytes.now vectors.now id }
{
    sets_egress(space) && !has_vector(vectors, id)
}

/// V, B, C and U of these controls, without R.
fn without_redirect(controls: u8) -> u8
    ensures { result ≡ without_redirect controls }
{
    controls % 4 + controls / 8 % 4 * 8
}

/// V, B, R, C, U and E.
fn plain_controls(space: &ConfigSpace<'_>) -> u8
    ensures { result ≡ plain_controls space.now.bytes.now }
{
    (control_register(space.acs()) % 64) as u8
}

/// The controls of the port that has this ID in a layout with these vectors. Where it controls egress without a vector
/// there, requests may go directly to whatever port the vector of the machine lets them through to: Request Redirect
/// counts as clear.
pub fn controls_of(space: &ConfigSpace<'_>, vectors: &[EgressText], id: Bdf) -> u8
    ensures { result ≡ controls_of space.now.bytes.now vectors.now id }
{
    let controls = plain_controls(space);
    if loses_egress(space, vectors, id) {
        without_redirect(controls)
    } else {
        controls
    }
}
