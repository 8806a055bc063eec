//! A text read as lines, fields, numbers and IDs; line by line, by whoever knows what a line says.
#![tactic(auto)]

mod bytes;
mod digits;
mod fields;
mod line_reader;
mod lines;

pub use bytes::hex_bytes;
pub use digits::{decimal, hex_byte, hex_word, hexadecimal, id, wide_decimal};
pub use fab_types::{ScriptCause, ScriptFault};
pub use fields::{Parts, at_blank, cut, is_comment, is_keyword};
pub use line_reader::LineReader;
pub use lines::read_lines;
