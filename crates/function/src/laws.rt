//! Laws of the definitions alone.

ghost use Rattle.std.specs.Prelude.{◌≡◌, ℕ, List, length, slice_index};
ghost use Rattle.fab_types.specs.declared.status.Status.{Status};
ghost use Rattle.function.specs.declared.plan.Plan.{Plan};
ghost use Rattle.function.specs.declared.tags.OpenTag.{OpenTag};
ghost use Rattle.function.specs.declared.tags.TagUse.{TagUse};
ghost use Rattle.function.specs.Registers.{first_page, register_at, write_page};
ghost use Rattle.function.specs.Plans.{page_after};
ghost use Rattle.function.specs.Closings.{closed_by};
ghost use Rattle.function.specs.Tags.{free_tag};
ghost use Rattle.function.specs.Laws.{IsFixed, IsLowest};

/// Bytes of ID, and those that no register has, never change.
pub fn fixed_bytes_stay()
    ensures written { (page : List ℕ) (first : ℕ) (runs : List (ℕ × List ℕ)) (i : ℕ) → IsFixed (register_at i) → slice_index (write_page page first runs) i ≡ slice_index page i }
    ensures ticked { (page : List ℕ) (plan : Plan) (i : ℕ) → IsFixed (register_at i) → slice_index (page_after plan page) i ≡ slice_index page i }
    ensures closed { (page : List ℕ) (usage : TagUse) (status : Status) (payload : List ℕ) (i : ℕ) → length page ≡ 4096 → IsFixed (register_at i) →
        slice_index (closed_by page usage status payload) i ≡ slice_index page i }
{}

/// A read line takes the lowest free Tag of 0 to 7.
/// Free is each that the function doesn't have open. The line waits only where all are open.
pub fn lowest_free_tag_is_taken()
    ensures { (tags : List OpenTag) (function : ℕ) → IsLowest tags function (free_tag tags function) }
{}
