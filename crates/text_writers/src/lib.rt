//! How layouts and scripts are written, apart from how they are read: each is read back; and a layout that is made line
//! by line, with comments.
#![tactic(auto)]

mod draft;
mod draft_lines;
mod layout_laws;
mod line_laws;
mod script_laws;

pub use draft::Draft;
pub use layout_laws::{each_layout_has_a_text, layouts_are_read_back, layouts_keep_the_rules};
pub use line_laws::{layout_lines_are_in_range, layout_lines_are_read_back, words_are_read_back};
pub use script_laws::{
    commands_are_in_range, commands_are_read_back, each_script_has_a_text, scripts_are_in_range,
    scripts_are_read_back,
};
