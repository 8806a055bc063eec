//! Laws of the definitions alone.

ghost use Rattle.std.specs.Prelude.{◌≡◌, ◌+◌, All, ◌/◌, ◌%◌, ◌^◌, ◌<◌, ◌≤◌, ℕ, List, length, slice_index};
ghost use Rattle.tlp_view.specs.Packet.{Packet};
ghost use Rattle.tlp_view.specs.Bytes.{packet_of};
ghost use Rattle.tlp_view.specs.Malformed.{malformed};
ghost use Rattle.tlp_view.specs.View.{IsSound};
ghost use Rattle.tlp_view.specs.Runs.{runs};
ghost use Rattle.tlp_view.specs.Spelling.{Spells};
ghost use Rattle.tlp_view.specs.declared.completion.CompletionHead.{CompletionHead};
ghost use Rattle.tlp_view.specs.Completions.{completion_of, completion_bytes, HeadFits};
ghost use Rattle.tlp_view.specs.declared.request.RequestHead.{RequestHead};
ghost use Rattle.tlp_view.specs.Requests.{RequestFits, packet_bytes, read_request, write_request};

/// A byte list spells at most one packet.
pub fn spelled_once()
    ensures { (bytes : List ℕ) (t u : Packet) → Spells bytes t → Spells bytes u → t ≡ u }
{}

/// Bytes that no cause makes malformed spell a packet.
pub fn well_formed_spelled()
    ensures { (bytes : List ℕ) → ((i : ℕ) → slice_index bytes i < 256) → malformed bytes ≡ None → Spells bytes (packet_of bytes) }
{}

/// Well-formed packets are as long as their Length says.
/// Their requests stay within 4,096 bytes.
pub fn well_formed_sound()
    ensures { (bytes : List ℕ) → malformed bytes ≡ None → IsSound (packet_of bytes) }
{}

/// Each run of enabled bytes lies within the payload.
pub fn runs_within()
    ensures { (t : Packet) → All (λ run. run.0 + length run.1 ≤ length t.payload) (runs t) }
{}

/// The bytes of a completion spell it.
/// Its payload has at most 64 DW. So the bytes are read back as what they were made from.
pub fn completion_spelled()
    ensures { (head : CompletionHead) (payload : List ℕ) → HeadFits head → head.completer < 2 ^ 16 → head.requester < 2 ^ 16 → head.tag < 2 ^ 8
        → length payload ≤ 256 → length payload % 4 ≡ 0 → Spells (completion_bytes (completion_of head payload)) (completion_of head payload) }
{}

/// The bytes of a memory read that was made spell it.
/// So they are read back as what they were made from.
pub fn read_request_spelled()
    ensures { (head : RequestHead) (count : ℕ) → RequestFits head count → head.requester < 2 ^ 16 → head.tag < 2 ^ 8 → head.address < 2 ^ 64
        → Spells (packet_bytes (read_request head count)) (read_request head count) }
{}

/// The same of a memory write of at most 64 DW.
pub fn write_request_spelled()
    ensures { (head : RequestHead) (payload : List ℕ) → RequestFits head (length payload / 4) → head.requester < 2 ^ 16 → head.tag < 2 ^ 8 → head.address < 2 ^ 64
        → length payload ≤ 256 → length payload % 4 ≡ 0 → Spells (packet_bytes (write_request head payload)) (write_request head payload) }
{}
