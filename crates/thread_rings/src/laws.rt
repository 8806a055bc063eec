//! A law of every table. It is the contract of a function that does nothing.

ghost use Rattle.std.specs.Prelude.{◌≡◌, ◌==◌, ℕ, List, map, filter, length, slice_index_or};
ghost use Rattle.thread_rings.specs.Names.{RingName};
ghost use Rattle.thread_rings.specs.Wired.{AreWithin, dealt, no_tags, numbered, rows_from, rows_to, tag_of};
ghost use Rattle.thread_rings.specs.declared.wire.Wire.{Wire};

/// A worker is dealt the ends of its wires, and no others.
/// Of the rings of a table it is dealt an end to put into of each that leads from it, and an end to take from
/// of each that leads to it, in the order of the table: so as many as there are such wires.
pub fn a_worker_has_the_ends_of_its_wires()
    ensures outs { (count worker : ℕ) (table : List (Wire × RingName)) → AreWithin count (map (λ r. r.0) table)
        → (slice_index_or (dealt count table) worker no_tags).outs ≡ map tag_of (rows_from worker (numbered table)) }
    ensures ins { (count worker : ℕ) (table : List (Wire × RingName)) → AreWithin count (map (λ r. r.0) table)
        → (slice_index_or (dealt count table) worker no_tags).ins ≡ map tag_of (rows_to worker (numbered table)) }
    ensures many_outs { (count worker : ℕ) (table : List (Wire × RingName)) → AreWithin count (map (λ r. r.0) table)
        → length (slice_index_or (dealt count table) worker no_tags).outs ≡ length (filter (λ wire. wire.from == worker) (map (λ r. r.0) table)) }
    ensures many_ins { (count worker : ℕ) (table : List (Wire × RingName)) → AreWithin count (map (λ r. r.0) table)
        → length (slice_index_or (dealt count table) worker no_tags).ins ≡ length (filter (λ wire. wire.to == worker) (map (λ r. r.0) table)) }
{}
