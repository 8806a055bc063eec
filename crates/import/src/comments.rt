//! The words of comments.

ghost use Rattle.std.specs.Prelude.{◌≡◌, IfOk, string_bytes};
ghost use Rattle.std.specs.List.{list_all};
ghost use Rattle.text_writers.specs.Comments.{IsPrintable, is_printable};
ghost use Rattle.import.specs.Reasons.{AreWordsOf};

use crate::reason::Why;
use std::alloc::{AllocError, Global};

/// Are these printable characters of ASCII alone?
pub fn is_printable(words: &[u8]) -> bool
    ensures { result ≡ list_all is_printable words.now }
{
    words.iter().all(|byte| 32 <= *byte && *byte < 127)
}

/// The words of why a device has no place. Those of a rule are left out if they couldn't stand in a comment.
pub fn words_of(alloc: Global, why: &Why) -> Result<String, AllocError>
    ensures words { IfOk result (λ words. AreWordsOf why.now (string_bytes words)) }
    ensures printable { IfOk result (λ words. IsPrintable (string_bytes words)) }
{
    let words = format!(in alloc; "{why}")?;
    if is_printable(words.as_bytes()) {
        Ok(words)
    } else {
        Ok(String::new(alloc))
    }
}
