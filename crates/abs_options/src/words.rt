//! The command line, which `clap` reads.
ghost use Rattle.std.specs.Prelude.{◌≡◌, ◌≤◌, false, ℕ, List, IfOk, IfSome, IsErrOf};
ghost use Rattle.clap.specs.Simple.{app_of};
ghost use Rattle.clap.specs.Walk.{rule_of};
ghost use Rattle.abs_options.specs.CommandLine.{command_line, flag_rule, number_of, number_rule, spelled};
ghost use Rattle.abs_options.specs.CommandLine.{AreCommandWords, AreInRange, AreMatchesOf, AreOptions};
ghost use Rattle.abs_options.specs.CommandLine.{IsInput, IsNumberOption};

use crate::meaning::{FileName, Options, OptionsError, Wanted};
use abs_tree::limits::EVENT_LIMIT;
use clap::error::ErrorKind;
use clap::{Arg, ArgAction, ArgMatches, Command, value_parser};
use std::alloc::{AllocError, Global};

/// What the words of a command line ask for. The first of them is the program's name.
///
/// # Errors
/// [`OptionsError::Usage`] where they are not of the command, and [`OptionsError::Memory`] where memory runs out.
pub fn options(alloc: Global, words: &Vec<String>) -> Result<Options, OptionsError>
    ensures of_command { IfOk result (λ _. AreCommandWords (spelled words.now)) }
    ensures options { IfOk result (AreOptions (spelled words.now)) }
    ensures in_range { IfOk result AreInRange }
    ensures usage { IsErrOf result OptionsError.Usage → AreCommandWords (spelled words.now) → ⊥ }
{
    let Ok(command) = command(alloc) else {
        return Err(OptionsError::Memory);
    };
    match command.try_get_matches_from(words.as_slice()) {
        Ok(matches) => asked(alloc, &matches),
        Err(error) if error.kind() == ErrorKind::OutOfMemory => Err(OptionsError::Memory),
        Err(_) => Err(OptionsError::Usage),
    }
}

/// The command: its flags, its options with their ranges, and its file.
fn command<'a>(alloc: Global) -> Result<Command<'a>, AllocError>
    ensures { IfOk result (λ command. app_of command ≡ command_line) }
{
    Command::new(alloc, "abs")
        .disable_help_flag(true)
        .disable_version_flag(true)
        .arg(flag(alloc, "check"))?
        .arg(flag(alloc, "trace"))?
        .arg(number(alloc, "workers", 16))?
        .arg(number(alloc, "depth", 3))?
        .arg(number(alloc, "steps", 10_000_000))?
        .arg(number(alloc, "facts", 4_000_000))?
        .arg(number(alloc, "make", 2000))?
        .arg(Arg::new(alloc, "file"))
}

/// The flag `--NAME`.
fn flag<'a>(alloc: Global, name: &'a str) -> Arg<'a>
    ensures rule { rule_of result ≡ flag_rule name.entry.now }
    ensures local { result.global ≡ false }
{
    Arg::new(alloc, name).long(name).action(ArgAction::SetTrue)
}

/// The option `--NAME N`, where N is from 1 to `most`.
fn number<'a>(alloc: Global, name: &'a str, most: u32) -> Arg<'a>
    ensures rule { rule_of result ≡ number_rule name.entry.now most }
    ensures local { result.global ≡ false }
{
    Arg::new(alloc, name)
        .long(name)
        .value_parser(value_parser!(u64).range(1..=i64::from(most)))
}

/// The number of the option `--NAME`, where matches have one.
fn number_given(matches: &ArgMatches<'_>, name: &str) -> Option<u64>
    ensures { (words : List (List ℕ)) (most : ℕ) → AreMatchesOf words matches.now → IsNumberOption name.now most
        → (result ≡ number_of name.now words) × IfSome result (λ n. (1 ≤ n) × (n ≤ most)) }
{
    matches.get_one(name)
}

/// What matches ask for.
fn asked(alloc: Global, matches: &ArgMatches<'_>) -> Result<Options, OptionsError>
    requires { (words : List (List ℕ)) × AreMatchesOf words matches.now }
    ensures of_command { (words : List (List ℕ)) → AreMatchesOf words matches.now
        → IfOk result (λ _. AreCommandWords words) }
    ensures options { (words : List (List ℕ)) → AreMatchesOf words matches.now
        → IfOk result (AreOptions words) }
    ensures in_range { IfOk result AreInRange }
    ensures usage { (words : List (List ℕ)) → AreMatchesOf words matches.now
        → IsErrOf result OptionsError.Usage → AreCommandWords words → ⊥ }
{
    let input = wanted(alloc, matches)?;
    Ok(Options {
        check: matches.get_flag("check"),
        trace: matches.get_flag("trace"),
        workers: number_given(matches, "workers").unwrap_or(4) as u8,
        depth: number_given(matches, "depth").unwrap_or(1) as u8,
        steps: number_given(matches, "steps").unwrap_or(EVENT_LIMIT),
        facts: number_given(matches, "facts").unwrap_or(1_000_000),
        input,
    })
}

/// What matches want analysed: the file, or the made text.
fn wanted(alloc: Global, matches: &ArgMatches<'_>) -> Result<Wanted, OptionsError>
    requires { (words : List (List ℕ)) × AreMatchesOf words matches.now }
    ensures of_command { (words : List (List ℕ)) → AreMatchesOf words matches.now
        → IfOk result (λ _. AreCommandWords words) }
    ensures input { (words : List (List ℕ)) → AreMatchesOf words matches.now
        → IfOk result (IsInput words) }
    ensures in_range { IfOk result (λ input. (count : ℕ) → input ≡ Wanted.Make count
        → (1 ≤ count) × (count ≤ 2000)) }
    ensures usage { (words : List (List ℕ)) → AreMatchesOf words matches.now
        → IsErrOf result OptionsError.Usage → AreCommandWords words → ⊥ }
{
    match (matches.get_str("file"), number_given(matches, "make")) {
        (Some(file), None) => match String::from_str(alloc, file) {
            Ok(name) => Ok(Wanted::File(FileName::new(name))),
            Err(AllocError) => Err(OptionsError::Memory),
        },
        (None, Some(count)) => Ok(Wanted::Make(count as u32)),
        _ => Err(OptionsError::Usage),
    }
}
