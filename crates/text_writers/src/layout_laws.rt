//! Laws of written layouts. Each is the contract of a function that does nothing.

ghost use Rattle.std.specs.Prelude.{◌≡◌, List, Ok, ℕ};
ghost use Rattle.layout.specs.Laws.{IsPlatform};
ghost use Rattle.layout.specs.Places.{IsWellPlaced};
ghost use Rattle.layout.specs.Reading.{reading};
ghost use Rattle.text_writers.specs.HasLines.{HasLines};
ghost use Rattle.text_writers.specs.LayoutTexts.{text_of};
ghost use Rattle.platform.specs.Platform.{Platform};

/// A law: a platform that keeps the rules is read from its text.
pub fn layouts_are_read_back()
    ensures { (platform : Platform) → IsPlatform platform → IsWellPlaced platform → HasLines platform → reading (text_of platform) ≡ Ok platform }
{}

/// A law: every platform that is read keeps the rules.
pub fn layouts_keep_the_rules()
    ensures { (text : List ℕ) (platform : Platform) → reading text ≡ Ok platform → IsPlatform platform × IsWellPlaced platform × HasLines platform }
{}

/// A law: every platform that is read is read from its own text too.
pub fn each_layout_has_a_text()
    ensures { (text : List ℕ) (platform : Platform) → reading text ≡ Ok platform → reading (text_of platform) ≡ Ok platform }
{}
