//! Reads of a page, and their completions.

ghost use Rattle.std.specs.Prelude.{true, ◌≡◌, ◌<◌, ◌≤◌, ◌*◌, IfSome, length};
ghost use Rattle.std.specs.Option.{option_copied};
ghost use Rattle.function.specs.Accesses.{is_empty_read, place_of, read_data, shown_part};
ghost use Rattle.tlp_view.specs.declared.kind.Kind.TheVariants.{MRd};
ghost use Rattle.tlp_view.specs.Kinds.{has_address};
ghost use Rattle.tlp_view.specs.Packet.{dw_count};
ghost use Rattle.tlp_view.specs.Completions.{read_completion};

use fab_types::Bdf;
use tlp_view::{CompletionHead, CplBuf, TlpView};

/// The place in the page that the address names.
pub(crate) fn place_of(request: &TlpView) -> usize
    requires { has_address (request.now).kind ≡ true }
    ensures value { result ≡ place_of request.now }
    ensures inside { result < 4096 }
{
    (request.address().unwrap() % 4096) as usize
}

/// Does the packet ask for no byte?
fn is_empty_read(request: &TlpView, count: u16) -> bool
    requires { count ≡ dw_count (request.now).length }
    ensures { result ≡ is_empty_read request.now }
{
    match request.enables() {
        Some(enables) => count == 1 && enables.first == 0,
        None => false,
    }
}

/// The bytes of a page that a read shows; none of a read of no bytes.
pub(crate) fn shown_part<'a>(page: &'a [u8], request: &TlpView) -> Option<&'a [u8]>
    requires size { length page.now ≡ 4096 }
    requires read { (request.now).kind ≡ MRd }
    requires short { dw_count (request.now).length ≤ 64 }
    ensures value { option_copied result ≡ shown_part page.now request.now }
    ensures data { IfSome result (λ part. part.now ≡ read_data page.now request.now) }
    ensures size { IfSome result (λ part. length part.now ≡ 4 * dw_count (request.now).length) }
{
    let count = request.dw_length();
    if is_empty_read(request, count) {
        return None;
    }
    let start = place_of(request);
    Some(&page[start..start + 4 * usize::from(count)])
}

/// The completion of a read of this page, which bears this ID.
pub(crate) fn completion_of(id: Bdf, page: &[u8], request: &TlpView) -> CplBuf
    requires size { length page.now ≡ 4096 }
    requires read { (request.now).kind ≡ MRd }
    requires short { dw_count (request.now).length ≤ 64 }
    ensures { result ≡ read_completion id request.now (read_data page.now request.now) }
{
    let count = usize::from(request.dw_length());
    let mut answer = CplBuf::new(CompletionHead::of_read(id, request), count);
    if let Some(part) = shown_part(page, request) {
        answer.payload_mut().copy_from_slice(part);
    }
    answer
}
