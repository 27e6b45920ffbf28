//! The command line.

ghost use Rattle.std.specs.Prelude.{if◌then◌else◌, ◌≡◌, ◌⊎◌, ◌≤◌, [], IfOk, IfSome, MatchResult, Some, false, is_some, map, option_map, string_bytes};
ghost use Rattle.std.specs.List.{list_any};
ghost use Rattle.clap.specs.Words.{HasKind, app_of, fault_of, first_of, found_of, kind_of, matches_of, rows_of, rule_of};
ghost use Rattle.clap.specs.declared.error.kind.ErrorKind.TheVariants.{OutOfMemory};
ghost use Rattle.ll_command.specs.Command as spec;

use crate::misuse::{Message, Misuse};
use clap::builder::ValueParser;
use clap::error::ErrorKind;
use clap::{Arg, ArgAction, ArgMatches, Command, Error};
use ll_report::{Format, Options, Shown};
use ll_rights::{Abi, AbiRange, with_abi_numbers};
use ll_trace::Effort;
use std::alloc::{AllocError, Global};

/// What a run is asked to do.
#[derive(Clone, Copy, Debug)]
pub struct Run<'a> {
    /// The options of the audit.
    pub options: Options,
    /// How many threads judge.
    pub workers: u64,
    /// From how many records on a forked process may go to another thread.
    pub grain: u64,
    /// The name of the file with the tree.
    pub tree: &'a str,
    /// The name of the file with the trace.
    pub trace: &'a str,
}

/// What the words of the command line ask for.
#[derive(Debug, Drop)]
pub enum Plan<'a> {
    /// A run.
    Run(Run<'a>),
    /// Help or the version.
    Text(Message),
    /// Nothing: the words are at fault, and the message says why.
    Usage(Message),
    /// Nothing: each word is as its rule has it, and they are still wrong.
    Misuse(Misuse),
    /// Out of memory while the words were read.
    Memory,
}

/// What `--version` prints behind the name: the version, and the line of the toolchain that proves and builds it.
pub const VERSION: &str = "0.2 (rattle-kit-13f logic dac8208d650f15bf)";

const ABOUT: &str = "Says what Landlock answers to each system call of a trace";

/// What help says of an argument: a line for `-h`, and the whole for `--help`.
#[derive(Clone, Copy)]
struct Help {
    short: &'static str,
    whole: &'static str,
}

const TREE_HELP: Help = Help {
    short: "File with the file tree, or - for standard input",
    whole: "\
File with the file tree, one object a line, parents first, or - for
standard input:
  {\"path\":\"/a\",\"kind\":\"dir\"}
  {\"path\":\"/a/f\",\"kind\":\"reg\"}",
};

const TRACE_HELP: Help = Help {
    short: "File with the calls, or - for standard input",
    whole: "\
File with the calls, one a line, in the order in which they took
effect, or - for standard input:
  {\"op\":\"start\",\"pid\":10}
  {\"op\":\"open\",\"pid\":10,\"path\":\"/a/f\",\"fd\":4,\"mode\":\"r\"}",
};

const ABI_HELP: Help = Help {
    short: with_abi_numbers!("Landlock's ABI, ", ", or an ascending range such as 2-5"),
    whole: with_abi_numbers!(
        "Landlock's ABI, ",
        ", or an ascending range such as 2-5. Over a range
each ABI answers by itself, and neighbouring ABIs with the same answer
are printed together."
    ),
};

const WORKERS_HELP: Help = Help {
    short: "Number of judging threads, 1 to 64",
    whole: "\
Number of judging threads besides the main one, 1 to 64. With two or
more, threads also read the trace. The report does not depend on it.",
};

const GRAIN_HELP: Help = Help {
    short: "Fewest records of a forked process that may go to another thread",
    whole: "\
Fewest records of a forked process that may go to another thread.
Lower it if many short processes keep few threads busy; raise it if
handing them out takes longer than judging them. The report does not
depend on it.",
};

const EFFORT_HELP: Help = Help {
    short: "Judge a program that drops the rights which the ABI does not have",
    whole: "\
Judge the rulesets of a program that asks its kernel for the ABI and
drops the rights which this ABI does not have. Without this option,
rulesets are judged as recorded, and a right that the ABI does not
have is an error. Give it to judge such a program at ABIs older than
the one at which it was recorded.",
};

const REFUSED_HELP: Help = Help {
    short: "Print only the records that some ABI refuses",
    whole: "\
Print only the records that some ABI refuses. The totals count all
records.",
};

const DIFFERS_HELP: Help = Help {
    short: "Print only the records whose answer differs between the ABIs of the range",
    whole: "\
Print only the records whose answer differs between the ABIs of the
range. The totals count all records.",
};

const EXPLAIN_HELP: Help = Help {
    short: "Print why records are refused or moot",
    whole: "\
Print below each record that is refused or moot why this is so: each
layer that refuses it, the line of the restrict that made the layer,
and what is missing on which path or port; or the condition of its
error; or why the policy is not asked.",
};

const KINDS_HELP: Help = Help {
    short: "Print each kind of record once, and how many records are of it",
    whole: "\
Print each kind of record once: how many records are of it, the line
of the first, and the call with its paths or its port. Records are of
one kind if the same is printed for their calls. The totals count all
records.",
};

const JSON_HELP: Help = Help {
    short: "Print the report as JSON Lines",
    whole: "\
Print the report as JSON Lines: one object for each record or kind,
then one with the totals. It has the same content as the text.",
};

const MORE_HELP: &str = "\
Example: what some ABI refuses of a recording, and why
  landaudit --abi 1-5 --explain --refused rec/tree.jsonl rec/trace.jsonl

Status:
  0  no call is refused, or this help or the version was asked for
  1  some ABI refuses some call
  2  the command line is wrong
  3  a file can't be read, or a line of it is wrong
  4  no memory or no thread is left, or the report can't be written

The files and the report are described in landaudit(5) and docs/FORMATS.md.";

/// An argument with its help.
fn argument<'a>(alloc: Global, name: &'a str, action: ArgAction, help: Help) -> Arg<'a>
    ensures rule { rule_of result ≡ spec.argument name.entry.now action }
    ensures local { result.global ≡ false }
{
    Arg::new(alloc, name)
        .action(action)
        .help(help.short)
        .long_help(help.whole)
}

/// An option `--name`.
fn option<'a>(alloc: Global, name: &'a str, action: ArgAction, help: Help) -> Arg<'a>
    ensures rule { rule_of result ≡ spec.option name.entry.now action }
    ensures local { result.global ≡ false }
{
    argument(alloc, name, action, help).long(name)
}

/// An option `--name N`.
fn number_option<'a>(alloc: Global, name: &'a str, least: u64, most: u64, help: Help) -> Arg<'a>
    ensures rule { rule_of result ≡ spec.number_option name.entry.now least most }
    ensures local { result.global ≡ false }
{
    option(alloc, name, ArgAction::Set, help)
        .value_name("N")
        .value_parser(ValueParser::unsigned(least, most))
}

/// An option `--name N[-M]`.
fn text_option<'a>(alloc: Global, name: &'a str, help: Help) -> Arg<'a>
    ensures rule { rule_of result ≡ spec.text_option name.entry.now }
    ensures local { result.global ≡ false }
{
    option(alloc, name, ArgAction::Set, help).value_name("N[-M]")
}

/// The name of a file, which has to be given.
fn file_argument<'a>(alloc: Global, name: &'a str, help: Help) -> Arg<'a>
    ensures rule { rule_of result ≡ spec.file_argument name.entry.now }
    ensures local { result.global ≡ false }
{
    argument(alloc, name, ArgAction::Set, help).required(true)
}

/// The arguments, with the texts of their help.
fn arguments<'a>(alloc: Global) -> Result<Vec<Arg<'a>>, AllocError>
    ensures rules { IfOk result (λ arguments. map rule_of arguments.items ≡ spec.arguments) }
    ensures local { IfOk result (λ arguments.
        list_any (λ argument. argument.global) arguments.items ≡ false) }
{
    Ok(vec![in alloc;
        text_option(alloc, "abi", ABI_HELP).required(true),
        number_option(alloc, "workers", 1, 64, WORKERS_HELP).default_value("1"),
        number_option(alloc, "grain", 0, u64::MAX, GRAIN_HELP).default_value("64"),
        option(alloc, "best-effort", ArgAction::SetTrue, EFFORT_HELP),
        option(alloc, "refused", ArgAction::SetTrue, REFUSED_HELP),
        option(alloc, "differs", ArgAction::SetTrue, DIFFERS_HELP),
        option(alloc, "explain", ArgAction::SetTrue, EXPLAIN_HELP),
        option(alloc, "kinds", ArgAction::SetTrue, KINDS_HELP),
        option(alloc, "json", ArgAction::SetTrue, JSON_HELP),
        file_argument(alloc, "TREE", TREE_HELP),
        file_argument(alloc, "TRACE", TRACE_HELP),
    ]?)
}

/// The command, with the texts of its help.
#[tactic(auto, unfolding(crate::specs::Command::command))]
fn command<'a>(alloc: Global) -> Result<Command<'a>, AllocError>
    ensures { IfOk result (λ command. app_of command ≡ spec.command) }
{
    Command::new(alloc, "landaudit")
        .version(VERSION)
        .about(ABOUT)
        .after_long_help(MORE_HELP)
        .args(arguments(alloc)?)
}

/// The version whose number a digit is.
fn version(digit: u8) -> Option<Abi>
    ensures { result ≡ spec.version_at digit }
{
    if b'0' <= digit {
        Abi::new(u64::from(digit - b'0'))
    } else {
        None
    }
}

/// The range from a version to one that isn't older.
fn range_between(oldest: Option<Abi>, newest: Option<Abi>) -> Option<AbiRange>
    ensures { result ≡ spec.range_between oldest newest }
{
    AbiRange::new(oldest?, newest?)
}

/// The range that a text names: a version, or two with a hyphen between them.
fn range(text: &str) -> Option<AbiRange>
    ensures { result ≡ spec.range_in text.now }
{
    match text.as_bytes() {
        [digit] => range_between(version(*digit), version(*digit)),
        [oldest, b'-', newest] => range_between(version(*oldest), version(*newest)),
        _ => None,
    }
}

/// The number of workers, where it is 1 to 64.
fn worker_count(number: u64) -> Option<u64>
    ensures value { result ≡ spec.worker_count number }
    ensures count { IfSome result (λ workers. (1 ≤ workers) × (workers ≤ 64)) }
{
    if 0 < number && number < 65 {
        Some(number)
    } else {
        None
    }
}

/// The number that the matches give an option.
fn number(matches: &ArgMatches<'_>, name: &str) -> Option<u64>
    ensures { result ≡ spec.number_at name.now (rows_of (found_of matches.now)) }
{
    matches.get_one::<u64>(name)
}

/// The text that the matches give an argument.
#[tactic(auto, using(crate::proofs::CommandLine::first_in_rows))]
fn text<'a>(matches: &ArgMatches<'a>, name: &str) -> Option<&'a str>
    ensures { option_map (λ text. text.now) result
        ≡ first_of name.now (rows_of (found_of matches.now)) }
{
    matches.get_str(name)
}

/// Whether the matches give an argument this text.
fn is_text(matches: &ArgMatches<'_>, name: &str, wanted: &str) -> bool
    ensures { result
        ≡ spec.is_text wanted.now (first_of name.now (rows_of (found_of matches.now))) }
{
    match text(matches, name) {
        Some(text) => text == wanted,
        None => false,
    }
}

/// Whether the matches have a flag.
fn flag(matches: &ArgMatches<'_>, name: &str) -> bool
    ensures { result ≡ spec.flag_at name.now (rows_of (found_of matches.now)) }
{
    is_text(matches, name, "true")
}

/// What the matches ask to show.
fn shown(matches: &ArgMatches<'_>) -> Shown
    ensures { result ≡ spec.shown_in (rows_of (found_of matches.now)) }
{
    Shown {
        explanations: flag(matches, "explain"),
        refused_alone: flag(matches, "refused"),
        differing_alone: flag(matches, "differs"),
        kinds: flag(matches, "kinds"),
    }
}

/// One of two values, by whether the matches have a flag.
fn by_flag<T: Copy>(matches: &ArgMatches<'_>, name: &str, with: T, without: T) -> T
    ensures { result ≡ (if spec.flag_at name.now (rows_of (found_of matches.now)) then with
        else without) }
{
    if flag(matches, name) { with } else { without }
}

/// What the matches ask of an audit under some versions.
fn options(abis: AbiRange, matches: &ArgMatches<'_>) -> Options
    ensures { result ≡ spec.options_in abis (rows_of (found_of matches.now)) }
{
    Options {
        abis,
        effort: by_flag(matches, "best-effort", Effort::Best, Effort::AsRecorded),
        shown: shown(matches),
        format: by_flag(matches, "json", Format::Json, Format::Text),
    }
}

/// What the matches ask for.
#[tactic(auto, unfolding(crate::specs::Command::request_in))]
fn run_of<'a>(matches: &ArgMatches<'a>) -> Option<Run<'a>>
    ensures request { option_map spec.request_by result
        ≡ spec.request_in (rows_of (found_of matches.now)) }
    ensures count { IfSome result (λ run. (1 ≤ run.workers) × (run.workers ≤ 64)) }
{
    Some(Run {
        options: options(range(text(matches, "abi")?)?, matches),
        workers: worker_count(number(matches, "workers")?)?,
        grain: number(matches, "grain")?,
        tree: text(matches, "TREE")?,
        trace: text(matches, "TRACE")?,
    })
}

/// The matches of the words.
fn parse<'a>(alloc: Global, words: &'a [String]) -> Result<ArgMatches<'a>, Error>
    ensures { MatchResult result
        (λ matches. (fault_of spec.command (map string_bytes words.entry.now) ≡ [])
        × (rows_of (found_of matches) ≡ matches_of spec.command (map string_bytes words.entry.now)))
        (HasKind (spec.faults (map string_bytes words.entry.now))) }
{
    let mut command = command(alloc)?;
    command.try_get_matches_from_mut(words)
}

/// What is wrong with matches that are each as their rule has it, if anything is.
fn misuse(matches: &ArgMatches<'_>) -> Option<Misuse>
    ensures { is_some result ≡ spec.is_misuse (rows_of (found_of matches.now)) }
{
    match text(matches, "abi") {
        Some(versions) if range(versions).is_some() => {}
        _ => return Some(Misuse::Versions),
    }
    if is_text(matches, "TREE", "-") && is_text(matches, "TRACE", "-") {
        return Some(Misuse::StandardInput);
    }
    None
}

/// Reads the words, of which the first is the program's name.
fn read<'a>(alloc: Global, words: &'a [String]) -> Result<Plan<'a>, Error>
    ensures { MatchResult result
        (spec.IsPlanFor (map string_bytes words.entry.now))
        (HasKind (spec.faults (map string_bytes words.entry.now))) }
{
    let matches = parse(alloc, words)?;
    if let Some(why) = misuse(&matches) {
        return Ok(Plan::Misuse(why));
    }
    match run_of(&matches) {
        Some(run) => Ok(Plan::Run(run)),
        None => unreachable!(),
    }
}

/// What the words ask for. The first is the program's name.
pub fn plan_of<'a>(alloc: Global, words: &'a [String]) -> Plan<'a>
    ensures { spec.IsPlanFor (map string_bytes words.entry.now) result }
{
    match read(alloc, words) {
        Ok(plan) => plan,
        Err(error) => match error.kind() {
            ErrorKind::OutOfMemory => Plan::Memory,
            ErrorKind::DisplayHelp | ErrorKind::DisplayVersion => Plan::Text(Message(error)),
            _ => Plan::Usage(Message(error)),
        },
    }
}
