//! Of which classes an item may leave a queue (PCIe 4.0, 2.4.1).

ghost use Rattle.std.specs.Prelude.{⊤, ◌≡◌, [], ◌∷◌, codes};
ghost use Rattle.fab_types.specs.declared.class.Class.TheVariants.{Completion, NonPosted, Posted};
ghost use Rattle.port_queue.specs.EligibleClasses.{has};

use bitflags::{Flag, Flags, bitflag_items};
use fab_types::Class;

/// Of which classes an item may leave.
// (one byte, so that it comes back in a register: three `bool`s are written apart into memory and read as one word,
// for which the processor waits)
#[derive(Clone, Copy, Debug, PartialEq, Eq)]
pub struct EligibleClasses(u8);

bitflag_items! {
    impl EligibleClasses: u8 {
        /// A posted item may leave.
        const POSTED = 1;
        /// A non-posted item may leave.
        const NON_POSTED = 2;
        /// A completion may leave.
        const COMPLETION = 4;
    }
}

impl EligibleClasses {
    /// An item of none of the classes may leave.
    pub const NONE: EligibleClasses = EligibleClasses(0);

    /// Those classes of which an item may leave.
    pub(crate) fn of(posted: bool, non_posted: bool, completion: bool) -> EligibleClasses
        ensures posted { has result Posted ≡ posted }
        ensures non_posted { has result NonPosted ≡ non_posted }
        ensures completion { has result Completion ≡ completion }
    {
        EligibleClasses(u8::from(posted) + 2 * u8::from(non_posted) + 4 * u8::from(completion))
    }

    /// May an item of this class?
    pub fn has(&self, class: Class) -> bool
        ensures { result ≡ has self.now class }
    {
        match class {
            Class::Posted => self.contains(EligibleClasses::POSTED),
            Class::NonPosted => self.contains(EligibleClasses::NON_POSTED),
            Class::Completion => self.contains(EligibleClasses::COMPLETION),
        }
    }
}

impl Flags for EligibleClasses {
    type Bits = u8;

    ghost exact = { ⊤ };

    ghost table = { (codes "POSTED", 1) ∷ (codes "NON_POSTED", 2) ∷ (codes "COMPLETION", 4) ∷ [] };

    ghost set_of = { λ l. l.0 };

    fn flags<'a>() -> &'a [Flag<EligibleClasses>] {
        EligibleClasses::FLAGS
    }

    fn bits(&self) -> u8 {
        self.0
    }

    fn from_bits_retain(bits: u8) -> EligibleClasses {
        EligibleClasses(bits)
    }
}
