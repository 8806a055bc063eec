//! A text cut into lines, and a line into fields.

ghost use Rattle.std.specs.Prelude.{◌≡◌, ◌<◌, length, IfSome, option_map};
ghost use Rattle.std.specs.Str.{bytes_eq};
ghost use Rattle.std.specs.List.{position};
ghost use Rattle.text.specs.Text.{at_blank, cut, is_byte, is_comment};

/// The two parts of a text that was cut.
#[derive(Clone, Copy, Debug)]
pub struct Parts<'a> {
    /// What stands before the byte of the cut.
    pub before: &'a [u8],
    /// What stands after the byte of the cut.
    pub after: &'a [u8],
}

fn first_place(text: &[u8], byte: u8) -> Option<usize>
    ensures place { result ≡ position (is_byte byte) text.now }
    ensures within { IfSome result (λ at. at < length text.now) }
{
    text.iter().position(|b| *b == byte)
}

/// Cuts a text at the first such byte, if there is one.
pub fn cut(text: &[u8], byte: u8) -> Option<Parts<'_>>
    ensures parts { option_map (λ parts. (parts.before.now, parts.after.now)) result ≡ cut byte text.now }
    ensures shorter { IfSome result (λ parts. length parts.after.now < length text.now) }
{
    match first_place(text, byte) {
        Some(at) => Some(Parts {
            before: &text[..at],
            after: &text[at + 1..],
        }),
        None => None,
    }
}

/// Cuts a text at its first blank, if there is one.
pub fn at_blank(text: &[u8]) -> Option<Parts<'_>>
    ensures parts { option_map (λ parts. (parts.before.now, parts.after.now)) result ≡ at_blank text.now }
    ensures shorter { IfSome result (λ parts. length parts.after.now < length text.now) }
{
    cut(text, b' ')
}

/// Is the field this word?
pub fn is_keyword(field: &[u8], word: &str) -> bool
    ensures { result ≡ bytes_eq field.now word.now }
{
    field == word.as_bytes()
}

/// Does the line begin with `#`?
pub fn is_comment(line: &[u8]) -> bool
    ensures { result ≡ is_comment line.now }
{
    !line.is_empty() && line[0] == b'#'
}
