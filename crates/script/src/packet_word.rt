//! The words by which a script names bytes.

ghost use Rattle.std.specs.Prelude.{Some};
ghost use Rattle.script.specs.PacketWord.{packet_bytes};
ghost use Rattle.text.specs.Answers.{IsRead};

use fab_types::{PacketBytes, ScriptCause};
use std::alloc::Global;
use text::{hex_bytes, is_keyword};

/// These bytes, which the journal and the log of who submits them share.
fn for_sharing(bytes: Vec<u8>) -> Result<PacketBytes, ScriptCause>
    ensures { IsRead (Some bytes.items) result }
{
    match PacketBytes::from_vec(bytes) {
        Ok(bytes) => Ok(bytes),
        Err(_) => Err(ScriptCause::NoMemory),
    }
}

/// The bytes that a word stands for: none at `-`, else those of its digits. There is no limit to
/// how many.
///
/// # Errors
///
/// `Line` at exactly the words that stand for no bytes, and `NoMemory` where memory was refused.
#[tactic(auto, unfolding(crate::specs::PacketWord::packet_bytes))]
pub fn packet_bytes(alloc: Global, word: &[u8]) -> Result<PacketBytes, ScriptCause>
    ensures { IsRead (packet_bytes word.now) result }
{
    if is_keyword(word, "-") {
        return for_sharing(Vec::new(alloc));
    }
    match hex_bytes(alloc, word) {
        Ok(Some(bytes)) => for_sharing(bytes),
        Ok(None) => Err(ScriptCause::Line),
        Err(_) => Err(ScriptCause::NoMemory),
    }
}
