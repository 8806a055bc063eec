//! Where a function stands among those of its domain.

ghost use Rattle.std.specs.Prelude.{◌≡◌, ◌==◌, [], IfSome, option_map, slice_index_or};
ghost use Rattle.std.specs.List.{position};
ghost use Rattle.host_memory.specs.Pages.{page_of};

use fab_types::Bdf;
use function::{Function, Functions};

/// Where this function stands among these, and its register page.
/// `None` exactly where it isn't one of them.
pub fn place(functions: &Functions, id: Bdf) -> Option<usize>
    ensures place { result ≡ position (λ page. page.0 == id) functions.now }
    ensures id { IfSome result (λ at. (slice_index_or functions.now at (0, [])).0 ≡ id) }
    ensures page { page_of functions.now id ≡ option_map (λ at. (slice_index_or functions.now at (0, [])).1) result }
{
    functions.place(id)
}

/// The function of this ID.
/// `None` exactly where it isn't one of these.
pub fn function_of(functions: &Functions, id: Bdf) -> Option<&Function>
    ensures id { IfSome result (λ function. (function.now).0 ≡ id) }
    ensures page { page_of functions.now id ≡ option_map (λ function. (function.now).1) result }
{
    let at = place(functions, id)?;
    Some(&functions.as_slice()[at])
}
