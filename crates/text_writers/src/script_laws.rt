//! Laws of written scripts. Each is the contract of a function that does nothing.

ghost use Rattle.std.specs.Prelude.{◌≡◌, ◌≤◌, List, Ok, Some, length, ℕ};
ghost use Rattle.std.specs.List.{All};
ghost use Rattle.script.specs.Commands.{command_of};
ghost use Rattle.script.specs.Reading.{reading};
ghost use Rattle.script.specs.declared.lines.Command.{Command};
ghost use Rattle.script.specs.declared.lines.Line.{Line};
ghost use Rattle.text_writers.specs.CommandTexts.{command_text};
ghost use Rattle.text_writers.specs.CommandRanges.{IsInRange};
ghost use Rattle.text_writers.specs.ScriptTexts.{commands_of, numbered, script_text};

/// A law: each command is read back from the text of its line.
pub fn commands_are_read_back()
    ensures { (command : Command) → IsInRange command → command_of (command_text command) ≡ Some command }
{}

/// A law: commands, at most 65,536 of them, are read from their text.
pub fn scripts_are_read_back()
    ensures { (commands : List Command) → All IsInRange commands → length commands ≤ 65536 → reading (script_text commands) ≡ Ok (numbered 1 commands) }
{}

/// A law: each command that is read is in range, whatever its spelling.
pub fn commands_are_in_range()
    ensures { (text : List ℕ) (command : Command) → command_of text ≡ Some command → IsInRange command }
{}

/// A law: a script that is read has commands in range, at most 65,536.
pub fn scripts_are_in_range()
    ensures { (text : List ℕ) (script : List Line) → reading text ≡ Ok script → All IsInRange (commands_of script) × (length script ≤ 65536) }
{}

/// A law: whatever script is read, its commands are read from their text too.
pub fn each_script_has_a_text()
    ensures { (text : List ℕ) (script : List Line) → reading text ≡ Ok script → reading (script_text (commands_of script)) ≡ Ok (numbered 1 (commands_of script)) }
{}
