//! What the command-line arguments ask for.
ghost use Rattle.std.specs.Prelude.{◌≡◌, ◌≤◌, false, IfOk, IfSome, map, option_map, string_bytes};
ghost use Rattle.std.specs.List.{list_all};
ghost use Rattle.clap.specs.Words.{app_of, subcommand_rows_of};
ghost use Rattle.clap.specs.declared.builder.command.Command.TheViews.{out-Command as fields_of};
ghost use Rattle.cg_script.specs.Words.{is_digit, are_digits};
ghost use Rattle.cg_words.specs.Words.{number_between, run_by, generate_by, job_in, run_line, generate_line, expand_line, record_line, line_with_numbers, command_line as line_of_commands, asked, IsInRange};

use cg_script::MOST_BUDGET;
use clap::error::ErrorKind;
use clap::{Arg, ArgAction, ArgMatches, Command};
use std::alloc::{AllocError, Global};

/// The most digits of a number.
const MOST_DIGITS: usize = 6;

/// The most blocks of a generated script.
const MOST_BLOCKS: u32 = 10_000;

/// What the program is to do.
#[derive(Clone, Copy, Debug, PartialEq, Eq)]
pub enum Job {
    /// Runs the script from the source, with this budget or with no budget of its own.
    Run { budget: Option<u32> },
    /// Runs the generated script of a number of blocks and writes the summary of its text.
    Generate { blocks: u32 },
    /// Writes the expansion of the extended script from the source.
    Expand,
    /// Runs the script from the source, and writes the records of its collections.
    Record,
}

fn is_digit_byte(byte: u8) -> bool
    ensures { result ≡ is_digit byte }
{
    byte.is_ascii_digit()
}

fn has_digits_alone(word: &[u8]) -> bool
    ensures { result ≡ list_all is_digit word.now }
{
    word.iter().all(|byte| is_digit_byte(*byte))
}

/// A word of one to six digits, and nothing else.
fn is_numeral(word: &str) -> bool
    ensures { result ≡ are_digits 6 word.now }
{
    !word.is_empty() && word.len() <= MOST_DIGITS && has_digits_alone(word.as_bytes())
}

/// The number that a word writes, if it is in this range.
fn number_in(word: &str, least: u32, most: u32) -> Option<u32>
    ensures number { result ≡ number_between least most word.now }
    ensures within { IfSome result (λ n. (least ≤ n) × (n ≤ most)) }
{
    if !is_numeral(word) {
        return None;
    }
    match word.parse::<u32>() {
        Ok(number) if least <= number && number <= most => Some(number),
        _ => None,
    }
}

/// `run`, with the option `--budget`.
fn run_command<'a>(alloc: Global) -> Result<Command<'a>, AllocError>
    ensures app { IfOk result (λ c. app_of c ≡ run_line) }
    ensures local { IfOk result (λ c. (fields_of c).has_globals ≡ false) }
{
    let budget = Arg::new(alloc, "budget")
        .long("budget")
        .action(ArgAction::Set);
    Command::new(alloc, "run").arg(budget)
}

/// `generate`, with one required text.
fn generate_command<'a>(alloc: Global) -> Result<Command<'a>, AllocError>
    ensures app { IfOk result (λ c. app_of c ≡ generate_line) }
    ensures local { IfOk result (λ c. (fields_of c).has_globals ≡ false) }
{
    let blocks = Arg::new(alloc, "blocks")
        .required(true)
        .action(ArgAction::Set);
    Command::new(alloc, "generate").arg(blocks)
}

/// `expand`, without arguments.
fn expand_command<'a>(alloc: Global) -> Command<'a>
    ensures app { app_of result ≡ expand_line }
    ensures local { (fields_of result).has_globals ≡ false }
{
    Command::new(alloc, "expand")
}

/// `record`, without arguments.
fn record_command<'a>(alloc: Global) -> Command<'a>
    ensures app { app_of result ≡ record_line }
    ensures local { (fields_of result).has_globals ≡ false }
{
    Command::new(alloc, "record")
}

/// The command line with the subcommands that take a number.
fn line_with_numbers<'a>(alloc: Global) -> Result<Command<'a>, AllocError>
    ensures { IfOk result (λ c. app_of c ≡ line_with_numbers) }
{
    let run = run_command(alloc)?;
    let generate = generate_command(alloc)?;
    Command::new(alloc, "gcrun")
        .no_binary_name(true)
        .disable_help_flag(true)
        .disable_help_subcommand(true)
        .disable_version_flag(true)
        .subcommand_required(true)
        .subcommand(run)?
        .subcommand(generate)
}

/// The command line, which requires one of the subcommands.
fn command_line<'a>(alloc: Global) -> Result<Command<'a>, AllocError>
    ensures { IfOk result (λ c. app_of c ≡ line_of_commands) }
{
    line_with_numbers(alloc)?
        .subcommand(expand_command(alloc))?
        .subcommand(record_command(alloc))
}

/// The job of `run`, given the text of its option.
fn run_job_by(budget: Option<&str>) -> Option<Job>
    ensures job { result ≡ run_by (option_map (λ t. t.now) budget.entry) }
    ensures range { IfSome result IsInRange }
{
    match budget {
        None => Some(Job::Run { budget: None }),
        Some(word) => {
            let budget = number_in(word, 0, MOST_BUDGET)?;
            Some(Job::Run {
                budget: Some(budget),
            })
        }
    }
}

/// The job of `generate`, given its text.
fn generate_job_by(blocks: Option<&str>) -> Option<Job>
    ensures job { result ≡ generate_by (option_map (λ t. t.now) blocks.entry) }
    ensures range { IfSome result IsInRange }
{
    let blocks = number_in(blocks?, 1, MOST_BLOCKS)?;
    Some(Job::Generate { blocks })
}

/// The job of a subcommand, given what was found for its argument.
fn job_in_matches(matches: &ArgMatches<'_>) -> Option<Job>
    ensures job { result ≡ job_in (subcommand_rows_of matches.now) }
    ensures range { IfSome result IsInRange }
{
    let (name, found) = matches.subcommand()?;
    match name {
        "run" => run_job_by(found.get_str("budget")),
        "generate" => generate_job_by(found.get_str("blocks")),
        "expand" => Some(Job::Expand),
        "record" => Some(Job::Record),
        _ => None,
    }
}

/// What the arguments ask for: `run` for a run, `run --budget N` for a run with a budget of N
/// frames (one to six digits, 0 to 100,000), `generate N` for the generated script of N blocks (one
/// to six digits, 1 to 10,000), `expand` for the expansion of an extended script, and `record` for
/// the records of a run.
///
/// `clap` parses the arguments. Answers `None` if clap refuses them or N has another form or range,
/// and `AllocError` only if memory runs out. (Ours.)
pub fn read_words(alloc: Global, words: &[String]) -> Result<Option<Job>, AllocError>
    ensures job { IfOk result (λ job. job ≡ asked (map string_bytes words.now)) }
    ensures range { IfOk result (λ job. IfSome job IsInRange) }
{
    match command_line(alloc)?.try_get_matches_from(words) {
        Ok(matches) => Ok(job_in_matches(&matches)),
        Err(error) => {
            if error.kind() == ErrorKind::OutOfMemory {
                Err(AllocError)
            } else {
                Ok(None)
            }
        }
    }
}
