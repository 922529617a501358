//! Which words the program takes, and the number that it exits with.
ghost use Rattle.std.specs.Prelude.{◌≡◌, ◌⊎◌, IfErr, IfOk, None, map, string_bytes};
ghost use Rattle.clap.specs.Words.{app_of, kind_of, subcommand_of, subcommand_rows_of};
ghost use Rattle.array_cli.specs.CommandLine.{command_line};
ghost use Rattle.array_cli.specs.Commands.{command_of, jobs_of, load_of, one_word_of};
ghost use Rattle.array_cli.specs.Exits.{exit_number};

use clap::error::ErrorKind;
use clap::{Arg, ArgMatches};
use raid_base::{NoMemory, Status};
use std::alloc::{AllocError, Global};
use text_lines::read_number;

/// How many jobs a load may have.
const MOST_JOBS: u64 = 1_500;

/// What the program is asked to do.
#[derive(Clone, Copy, Debug, PartialEq, Eq)]
pub enum Command {
    /// Plays the script of the input.
    Sim,
    /// Runs the script of the input on threads.
    Run,
    /// Plays the load of so many jobs.
    Load { jobs: u32 },
}

/// The command of one word alone.
fn read_word(word: &str) -> Option<Command>
    ensures { result ≡ one_word_of word.now }
{
    if word == "sim" {
        Some(Command::Sim)
    } else if word == "run" {
        Some(Command::Run)
    } else {
        None
    }
}

/// The number of jobs that a word writes.
fn read_jobs(word: &str) -> Option<u32>
    ensures { result ≡ jobs_of word.now }
{
    let jobs = read_number(word.as_bytes())?;
    if jobs == 0 || jobs > MOST_JOBS {
        return None;
    }
    u32::try_from(jobs).ok()
}

/// The command of two words.
fn read_load(word: &str, number: &str) -> Option<Command>
    ensures { result ≡ load_of word.now number.now }
{
    if word != "load" {
        return None;
    }
    let jobs = read_jobs(number)?;
    Some(Command::Load { jobs })
}

/// The command line: `sim` and `run` alone, and `load` with a number of jobs.
fn command_line<'a>(alloc: Global) -> Result<clap::Command<'a>, AllocError>
    ensures { IfOk result (λ line. app_of line ≡ command_line) }
{
    let jobs = Arg::new(alloc, "jobs").required(true);
    let load = clap::Command::new(alloc, "load").arg(jobs)?;
    clap::Command::new(alloc, "array")
        .no_binary_name(true)
        .disable_help_flag(true)
        .disable_help_subcommand(true)
        .subcommand(clap::Command::new(alloc, "sim"))?
        .subcommand(clap::Command::new(alloc, "run"))?
        .subcommand(load)
}

/// What the command line finds in the words. Words that it takes are refused for want of memory alone.
fn parse<'a>(alloc: Global, words: &'a [String]) -> Result<ArgMatches<'a>, clap::Error>
    ensures found { IfOk result (λ matches. subcommand_rows_of matches ≡ subcommand_of command_line (map string_bytes words.entry.now)) }
    ensures refused { IfErr result (λ error. (kind_of error ≡ ErrorKind.OutOfMemory) ⊎ (command_of (map string_bytes words.entry.now) ≡ None)) }
{
    command_line(alloc)?.try_get_matches_from(words)
}

/// The command that was found in these words. Nothing stands behind it.
fn command_found(matches: &ArgMatches<'_>, words: &[String]) -> Option<Command>
    requires { subcommand_rows_of matches.now ≡ subcommand_of command_line (map string_bytes words.now) }
    ensures { result ≡ command_of (map string_bytes words.now) }
{
    let (name, arguments) = matches.subcommand()?;
    match words {
        [_] => read_word(name),
        [_, _] => read_load(name, arguments.get_str("jobs")?),
        _ => None,
    }
}

/// The command that the words behind the program's name ask for.
pub fn read_command(alloc: Global, words: &[String]) -> Result<Option<Command>, NoMemory>
    ensures { IfOk result (λ command. command ≡ command_of (map string_bytes words.now)) }
{
    match parse(alloc, words) {
        Ok(matches) => Ok(command_found(&matches, words)),
        Err(error) if error.kind() == ErrorKind::OutOfMemory => Err(NoMemory),
        Err(_) => Ok(None),
    }
}

/// The number that the program exits with: 0 where the run is done, and another for each other end.
pub fn exit_number(status: Status) -> u8
    ensures { result ≡ exit_number status }
{
    match status {
        Status::Done => 0,
        Status::Words => 2,
        Status::ReadFault => 3,
        Status::TooLong => 4,
        Status::BadScript { .. } => 5,
        Status::TooMuch { .. } => 6,
        Status::TooFewStores { .. } => 7,
        Status::TooSmall { .. } => 8,
        Status::StoreFault { .. } => 9,
        Status::WriteFault => 10,
        Status::Memory => 11,
    }
}
