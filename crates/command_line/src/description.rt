//! The description of the program's commands, from which `clap` reads words and makes help.

ghost use Rattle.std.specs.Prelude.{◌≡◌, IfOk};
ghost use Rattle.clap.specs.Words.{App, app_of, new_app, with_rule};
ghost use Rattle.command_line.specs.CommandLine.{IsDefined, commands, domain_command, draw_command, explain_command, files_command, first_command, flag_rule, import_command, journal_commands, option_rule, run_commands, third_command, threads_command, word_rule};

use clap::{Arg, ArgAction, Command};
use std::alloc::{AllocError, Global};

const ABOUT: &str =
    "Runs a fabric of PCI Express switches whose domains (tenants) are kept apart by Access Control Services";

const FIRST_ABOUT: &str =
    "Submits one packet at the only function of the smallest fabric, and prints the memory that it changed";

const RUN_ABOUT: &str =
    "Runs the fabric of a layout by the lines of a script, and prints what each domain then holds";

const ALONE_ABOUT: &str =
    "Runs a script as `run` does, and prints one domain as its journal alone leaves it";

const JOURNAL_ABOUT: &str =
    "Runs a script as `run` does, and prints the journal of one domain, entry by entry";

const REPLAY_ABOUT: &str =
    "Replays the journal of one domain from the start of its layout, and prints what it then holds";

const THREADS_ABOUT: &str =
    "Runs the begins of a script on a thread for each port, function and host: packets of different functions then move in any order, as in hardware. Prints how many begins were refused, and what each domain then holds";

const DRAW_ABOUT: &str =
    "Prints the tree of a layout as a drawing in SVG: switches, ports with their controls, and functions in the colours of their domains";

const EXPLAIN_ABOUT: &str =
    "Prints the tree of a layout as text, and whether its domains are kept apart: where they aren't, for each two of them what one was seen to do to the other, with a script for `run` that shows it. Exit status 0: guarded; 3: something was seen; 4: not guarded, and nothing was seen; 5: as 0 or 4, of a part of the machine's endpoints alone; 6: fewer than two domains own a function, so there is nothing to keep apart";

const SCRIPTS_HELP: &str =
    "A folder: each script is written there too, as ATTACKER-reaches-VICTIM-NN.script by the numbers of the domains";

const LINUX_HELP: &str =
    "Adds the IOMMU groups that Linux makes of the tree, and the domains that they keep apart though one reaches the other";

const IMPORT_ABOUT: &str =
    "Prints the layout of a real machine, from what `lspci -xxxx` printed there as root: what is below its root ports, or below one of them. Exit status 0: each endpoint has a place in it; 5: some have none, and the layout's lines `# left out` name them";

const PACKET_HELP: &str = "The bytes of the packet in lower-case hexadecimal, or - for no bytes";

const LAYOUT_HELP: &str =
    "The file of the layout: switches, ports, functions and what each domain may reach";

const SCRIPT_HELP: &str =
    "The file of the script: what functions and hosts begin, and when packets move";

const JOURNAL_HELP: &str = "The file of a journal of the domain, as `journal` prints it";

const DOMAIN_HELP: &str = "The number of the domain, 1 to 31";

const TURNS_HELP: &str =
    "How many turns each thread makes, 1 to 1000000; the sweeps of the script are passed over";

const DUMP_HELP: &str = "The file of what `lspci -xxxx` printed";

const OWNERS_HELP: &str =
    "A file of who owns what: in each line the ID of a device in its machine, a blank, and a domain";

const ROOT_HELP: &str =
    "The only root port whose tree is wanted, as 00:1c.0, or in another PCI segment as 0001:00:1c.0";

const PARTIAL_HELP: &str =
    "Endpoints may be left out of the layout: the exit status is 0 then too. What is left out isn't isolated";

const EXAMPLE: &str = "\
Example: a posted write of the bytes 11 22 33 44 to address 0x1000, which is mapped to frame 0

  $ pciefab first 400000010300000f0000100011223344
  frame 0 000 11223344000000000000000000000000

Layouts are described in docs/LAYOUT.md; scripts, journals and what is printed in docs/FORMATS.md.
The exit status is 0, 2 where memory is refused, or 1 for any other fault; import and explain have more.";

/// A subcommand without words.
fn subcommand<'a>(alloc: Global, name: &'a str, about: &'a str) -> Command<'a>
    ensures { IsDefined result (new_app name.entry.now) }
{
    Command::new(alloc, name).about(about).after_help(EXAMPLE)
}

/// The command with one word more, which has to be there.
fn with_word<'a>(
    alloc: Global,
    command: Command<'a>,
    name: &'a str,
    help: &'a str,
) -> Result<Command<'a>, AllocError>
    ensures { (app : App) → IsDefined command.entry app → IfOk result (λ more. IsDefined more (with_rule app (word_rule name.entry.now))) }
{
    let word = Arg::new(alloc, name)
        .required(true)
        .action(ArgAction::Set)
        .help(help);
    command.arg(word)
}

/// The command with a word more behind `--` and this name, which may be there.
fn with_option<'a>(
    alloc: Global,
    command: Command<'a>,
    name: &'a str,
    help: &'a str,
) -> Result<Command<'a>, AllocError>
    ensures { (app : App) → IsDefined command.entry app → IfOk result (λ more. IsDefined more (with_rule app (option_rule name.entry.now))) }
{
    let word = Arg::new(alloc, name)
        .long(name)
        .action(ArgAction::Set)
        .help(help);
    command.arg(word)
}

/// The command with `--` and this name, which may be there.
fn with_flag<'a>(
    alloc: Global,
    command: Command<'a>,
    name: &'a str,
    help: &'a str,
) -> Result<Command<'a>, AllocError>
    ensures { (app : App) → IsDefined command.entry app → IfOk result (λ more. IsDefined more (with_rule app (flag_rule name.entry.now))) }
{
    let word = Arg::new(alloc, name)
        .long(name)
        .action(ArgAction::SetTrue)
        .help(help);
    command.arg(word)
}

/// A subcommand with the names of two files, of a layout and of this.
fn with_files<'a>(
    alloc: Global,
    name: &'a str,
    about: &'a str,
    second: &'a str,
    help: &'a str,
) -> Result<Command<'a>, AllocError>
    ensures { IfOk result (λ command. IsDefined command (files_command name.entry.now second.entry.now)) }
{
    let plain = subcommand(alloc, name, about);
    let with_layout = with_word(alloc, plain, "LAYOUT", LAYOUT_HELP)?;
    with_word(alloc, with_layout, second, help)
}

/// The same, and a further word.
fn with_third<'a>(
    alloc: Global,
    name: &'a str,
    about: &'a str,
    second: &'a str,
    help: &'a str,
    third: &'a str,
    third_help: &'a str,
) -> Result<Command<'a>, AllocError>
    ensures { IfOk result (λ command. IsDefined command (third_command name.entry.now second.entry.now third.entry.now)) }
{
    let with_files = with_files(alloc, name, about, second, help)?;
    with_word(alloc, with_files, third, third_help)
}

/// The same, and the number of a domain.
fn with_domain<'a>(
    alloc: Global,
    name: &'a str,
    about: &'a str,
    second: &'a str,
    help: &'a str,
) -> Result<Command<'a>, AllocError>
    ensures { IfOk result (λ command. IsDefined command (domain_command name.entry.now second.entry.now)) }
{
    with_third(alloc, name, about, second, help, "DOMAIN", DOMAIN_HELP)
}

fn first_definition<'a>(alloc: Global) -> Result<Command<'a>, AllocError>
    ensures { IfOk result (λ command. IsDefined command first_command) }
{
    let plain = subcommand(alloc, "first", FIRST_ABOUT);
    with_word(alloc, plain, "HEX", PACKET_HELP)
}

fn threads_definition<'a>(alloc: Global) -> Result<Command<'a>, AllocError>
    ensures { IfOk result (λ command. IsDefined command threads_command) }
{
    with_third(
        alloc,
        "threads",
        THREADS_ABOUT,
        "SCRIPT",
        SCRIPT_HELP,
        "TURNS",
        TURNS_HELP,
    )
}

fn draw_definition<'a>(alloc: Global) -> Result<Command<'a>, AllocError>
    ensures { IfOk result (λ command. IsDefined command draw_command) }
{
    let plain = subcommand(alloc, "draw", DRAW_ABOUT);
    with_word(alloc, plain, "LAYOUT", LAYOUT_HELP)
}

fn explain_definition<'a>(alloc: Global) -> Result<Command<'a>, AllocError>
    ensures { IfOk result (λ command. IsDefined command explain_command) }
{
    let plain = subcommand(alloc, "explain", EXPLAIN_ABOUT);
    let with_layout = with_word(alloc, plain, "LAYOUT", LAYOUT_HELP)?;
    let with_scripts = with_option(alloc, with_layout, "scripts", SCRIPTS_HELP)?;
    with_flag(alloc, with_scripts, "linux", LINUX_HELP)
}

fn import_definition<'a>(alloc: Global) -> Result<Command<'a>, AllocError>
    ensures { IfOk result (λ command. IsDefined command import_command) }
{
    let plain = subcommand(alloc, "import", IMPORT_ABOUT);
    let with_dump = with_word(alloc, plain, "DUMP", DUMP_HELP)?;
    let with_owners = with_option(alloc, with_dump, "owners", OWNERS_HELP)?;
    let with_root = with_option(alloc, with_owners, "root", ROOT_HELP)?;
    with_flag(alloc, with_root, "partial", PARTIAL_HELP)
}

/// The program with the commands of a run.
fn with_runs<'a>(alloc: Global) -> Result<Command<'a>, AllocError>
    ensures { IfOk result (λ command. app_of command ≡ run_commands) }
{
    let program = Command::new(alloc, "pciefab")
        .no_binary_name(true)
        .bin_name("pciefab")?
        .about(ABOUT)
        .after_help(EXAMPLE)
        .subcommand_required(true);
    let first = first_definition(alloc)?;
    let with_first = program.subcommand(first)?;
    let run = with_files(alloc, "run", RUN_ABOUT, "SCRIPT", SCRIPT_HELP)?;
    let with_run = with_first.subcommand(run)?;
    let alone = with_domain(alloc, "alone", ALONE_ABOUT, "SCRIPT", SCRIPT_HELP)?;
    with_run.subcommand(alone)
}

/// The same, and the commands of journals and of threads.
fn with_journals<'a>(alloc: Global) -> Result<Command<'a>, AllocError>
    ensures { IfOk result (λ command. app_of command ≡ journal_commands) }
{
    let with_runs = with_runs(alloc)?;
    let journal = with_domain(alloc, "journal", JOURNAL_ABOUT, "SCRIPT", SCRIPT_HELP)?;
    let with_journal = with_runs.subcommand(journal)?;
    let replay = with_domain(alloc, "replay", REPLAY_ABOUT, "JOURNAL", JOURNAL_HELP)?;
    let with_replay = with_journal.subcommand(replay)?;
    let threads = threads_definition(alloc)?;
    with_replay.subcommand(threads)
}

/// The program with its commands.
pub fn definition<'a>(alloc: Global) -> Result<Command<'a>, AllocError>
    ensures { IfOk result (λ command. app_of command ≡ commands) }
{
    let with_journals = with_journals(alloc)?;
    let draw = draw_definition(alloc)?;
    let with_draw = with_journals.subcommand(draw)?;
    let explain = explain_definition(alloc)?;
    let with_explain = with_draw.subcommand(explain)?;
    let import = import_definition(alloc)?;
    with_explain.subcommand(import)
}
