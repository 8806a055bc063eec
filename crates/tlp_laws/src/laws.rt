//! Laws of the definitions alone. Each is the contract of a function that does nothing.

ghost use Rattle.std.specs.Prelude.{◌≡◌, ◌↔◌, ℕ, ◌<◌, Bool, true, false, List, length, Option, Some, None};
ghost use Rattle.fab_types.specs.declared.faults.malformed.Malformed.{Malformed};
ghost use Rattle.tlp_view.specs.declared.enables.Enables.{Enables};
ghost use Rattle.tlp_view.specs.declared.kind.Kind.TheVariants.{MWr};
ghost use Rattle.tlp_view.specs.Malformed.{malformed};
ghost use Rattle.tlp_view.specs.Packet.{Packet, enables_in};
ghost use Rattle.tlp_view.specs.Runs.{is_enabled, runs};
ghost use Rattle.tlp_laws.specs.Causes.{IsLeastCause, applies};
ghost use Rattle.tlp_laws.specs.Coverage.{AreApart, AreOf, covers};

/// Bytes are malformed by the cause with the least number that applies to them.
///
/// - `found`: the cause that is named applies, and none with a lower number does.
/// - `only`: such a cause is named.
/// - `well`: no cause is named exactly where none applies.
pub fn malformed_by_the_least_cause()
    ensures found { (bytes : List ℕ) (cause : Malformed) → malformed bytes ≡ Some cause → IsLeastCause bytes cause }
    ensures only { (bytes : List ℕ) (cause : Malformed) → IsLeastCause bytes cause → malformed bytes ≡ Some cause }
    ensures well { (bytes : List ℕ) → (malformed bytes ≡ None) ↔ ((cause : Malformed) → applies cause bytes ≡ false) }
{}

/// A written byte lies in a run exactly where it is enabled (PCIe 4.0, 2.2.5).
///
/// - `enabled`: that, of each byte of the payload; and beyond its end no run lies.
/// - `bytes`: each run is the bytes of the payload that stand there.
pub fn runs_are_the_enabled_bytes()
    ensures enabled { (t : Packet) (enables : Enables) (i : ℕ) → t.kind ≡ MWr → enables_in t.body ≡ Some enables
        → covers (runs t) i ≡ true ↔ ((i < length t.payload) × (is_enabled enables (length t.payload) i ≡ true)) }
    ensures bytes { (t : Packet) → AreOf t.payload (runs t) }
{}

/// Runs rise, none is empty, and between two a byte isn't enabled.
pub fn runs_do_not_touch()
    ensures { (t : Packet) → AreApart (runs t) }
{}
