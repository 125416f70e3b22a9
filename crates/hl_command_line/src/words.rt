ghost use Rattle.std.specs.Prelude.{◌≡◌, ◌≤◌, ◌⊎◌, Bool};
ghost use Rattle.clap.specs.Words.{kind_of};
ghost use Rattle.hl_command_line.specs.Obeyed.{GivesNone, Obeys, words_status};
ghost use Rattle.hl_command_line.specs.declared.wanted.Wanted.{Wanted};

use crate::race::race;
use crate::wanted::Wanted;
use clap::error::ErrorKind;
use clap::{Arg, ArgAction, Command, Error, value_parser};
use hl_commands::{DONE, REFUSED, failed, judge, report, run, slow};
use hl_model::Fault;
use hl_race::Race;
use std::alloc::{AllocError, Global};
use std::convert::AsStr;
use std::io::{Read, Write};
use std::sync::Wait;
use std::thread::Threads;

/// Runs the command that the words name, the program's own name first, and gives the exit status: 0 where it
/// was done, or help was wanted; 1 where memory was refused, or a stream or a device failed, with the fault's line on
/// `errors`; 2 where a line of the script is no step, which is the last line of the output, or where the words
/// are refused, with the reason on `errors`.
///
/// `run` answers the script that the reader gives, with jobs of the tags 0 to 999; with `--flush` it then writes the
/// image of each page that can be flushed, one a line. `slow` answers it in the slow form. `report` runs it with the
/// same jobs, writes no answer, and then writes the report of what it left and of its accepted steps: nothing where
/// there is no line, and the text of a bad line alone. `judge` says of a trace, a script's lines each with ` -> ` and a
/// reply, how many lines agree with the definitions (0), or which is the first that deviates (1), or the first that is
/// no line of a trace (2). `race` runs riders beside a crew, each in a thread, and writes whether what they left is what
/// their steps say; where it isn't, the status is 1.
///
/// So much the clause `told` says of the status, for what the words were read as; which words mean what is tested. Where
/// help was wanted, or the words were refused, nothing is read.
pub fn command<T: Threads + Wait + Sync, S: AsStr, R: Read, W: Write, E: Write>(
    rt: &T,
    alloc: Global,
    words: &[S],
    reader: &mut R,
    writer: &mut W,
    errors: &mut E,
) -> u8
    ensures status { result ≤ 2 }
    ensures told { ((wanted : Wanted) × Obeys wanted (R.remaining reader.old) (R.remaining reader.new)
        (W.contents writer.old) (W.contents writer.new) result)
        ⊎ GivesNone (R.remaining reader.old) (R.remaining reader.new) result }
{
    match read_words(alloc, words) {
        Ok(wanted) => obey(rt, alloc, wanted, reader, writer, errors),
        Err(error) => answer(&error, writer, errors),
    }
}

/// Does what is wanted, and returns the exit status.
fn obey<T: Threads + Wait + Sync, R: Read, W: Write, E: Write>(
    rt: &T,
    alloc: Global,
    wanted: Wanted,
    reader: &mut R,
    writer: &mut W,
    errors: &mut E,
) -> u8
    ensures status { result ≤ 2 }
    ensures obeyed { Obeys wanted (R.remaining reader.old) (R.remaining reader.new)
        (W.contents writer.old) (W.contents writer.new) result }
{
    match wanted {
        Wanted::Run { flush } => run(alloc, flush, reader, writer, errors),
        Wanted::Slow => slow(alloc, reader, writer, errors),
        Wanted::Report => report(alloc, reader, writer, errors),
        Wanted::Judge => judge(alloc, reader, writer, errors),
        Wanted::Race {
            riders,
            rounds,
            cut,
            wide,
        } => match Race::checked(riders, rounds, cut) {
            Some(asked) => {
                let asked = if wide { asked.widened() } else { asked };
                race(rt, alloc, asked, writer, errors)
            }
            // The words were refused.
            None => REFUSED,
        },
    }
}

/// Reads the words.
fn read_words<'a, S: AsStr>(alloc: Global, words: &'a [S]) -> Result<Wanted, Error> {
    let matches = program(alloc)?.try_get_matches_from(words)?;
    Ok(match matches.subcommand() {
        Some(("slow", _)) => Wanted::Slow,
        Some(("report", _)) => Wanted::Report,
        Some(("judge", _)) => Wanted::Judge,
        Some(("race", race)) => Wanted::Race {
            riders: race.get_one("riders").unwrap_or(1),
            rounds: race.get_one("rounds").unwrap_or(1),
            cut: race.get_flag("cut"),
            wide: race.get_flag("wide"),
        },
        Some((_, run)) => Wanted::Run {
            flush: run.get_flag("flush"),
        },
        None => Wanted::Run { flush: false },
    })
}

/// The program's command line.
fn program<'a>(alloc: Global) -> Result<Command<'a>, AllocError> {
    let (run, race) = (run_words(alloc)?, race_words(alloc)?);
    let (slow, report, judge) = (slow_words(alloc), report_words(alloc), judge_words(alloc));
    let words = vec![in alloc; run, slow, report, judge, race]?;
    Command::new(alloc, "hl_tool")
        .about("Epoch protection and page frames after FASTER, on scripts of steps")
        .after_help("docs/FORMATS.md tells the lines of a script, and of its answers")
        .subcommand_required(true)
        .subcommands(words)
}

/// The words of a run.
fn run_words<'a>(alloc: Global) -> Result<Command<'a>, AllocError> {
    let flush = Arg::new(alloc, "flush")
        .long("flush")
        .action(ArgAction::SetTrue)
        .help("Then writes the image of each page that can be flushed");
    Command::new(alloc, "run")
        .about("Answers the script on standard input, line by line")
        .override_usage("hl_tool run [--flush] < SCRIPT")
        .arg(flush)
}

/// The words of the slow form.
fn slow_words<'a>(alloc: Global) -> Command<'a> {
    Command::new(alloc, "slow")
        .about(
            "The same text, computed from the list of steps: a line takes some forty times as long",
        )
        .override_usage("hl_tool slow < SCRIPT")
}

/// The words of a report.
fn report_words<'a>(alloc: Global) -> Command<'a> {
    Command::new(alloc, "report")
        .about("Runs the script without its answers, and reports what it left, in eighteen lines")
        .override_usage("hl_tool report < SCRIPT")
}

/// The words of a judge.
fn judge_words<'a>(alloc: Global) -> Command<'a> {
    Command::new(alloc, "judge")
        .about(
            "Judges whether the replies of a trace, each behind its line and ` -> `, are the definitions'",
        )
        .override_usage("hl_tool judge < TRACE")
}

/// The words of a race.
fn race_words<'a>(alloc: Global) -> Result<Command<'a>, AllocError> {
    let riders = Arg::new(alloc, "riders")
        .required(true)
        .value_name("RIDERS")
        .value_parser(value_parser!(u64).range(1..=8))
        .help("How many threads race");
    let rounds = Arg::new(alloc, "rounds")
        .required(true)
        .value_name("ROUNDS")
        .value_parser(value_parser!(u64).range(1..=1000))
        .help("How many rounds each makes, and how many turns the crew behind them");
    let cut = Arg::new(alloc, "cut")
        .long("cut")
        .action(ArgAction::SetTrue)
        .help("Cuts the journal at the end of each of the crew's turns");
    let wide = Arg::new(alloc, "wide")
        .long("wide")
        .action(ArgAction::SetTrue)
        .conflicts_with("cut")?
        .help("Races in a domain of 1,024 slots and 4,096 places for actions");
    Command::new(alloc, "race")
        .about("Runs threads against each other, and checks what they left against their journal")
        .override_usage("hl_tool race RIDERS ROUNDS [--cut | --wide]")
        .args(vec![in alloc; riders, rounds, cut, wide]?)
}

/// Tells the user why the words gave no command: help was wanted, or they were refused. Returns the exit status.
fn answer<W: Write, E: Write>(error: &Error, writer: &mut W, errors: &mut E) -> u8
    ensures { (is_out : Bool) × (result ≡ words_status (kind_of error.now) is_out) }
{
    let is_out = show(error, writer, errors);
    status_of(error.kind(), is_out, errors)
}

/// Writes the help that was wanted, or on the errors why the words are refused. Returns whether that went out.
fn show<W: Write, E: Write>(error: &Error, writer: &mut W, errors: &mut E) -> bool {
    if error.kind() == ErrorKind::OutOfMemory {
        false
    } else if error.use_stderr() {
        write!(errors, "{error}").is_ok()
    } else {
        write!(writer, "{error}").is_ok() && writer.flush().is_ok()
    }
}

/// Returns the status of words that give no command, which was told or not.
fn status_of<E: Write>(kind: ErrorKind, is_out: bool, errors: &mut E) -> u8
    ensures { result ≡ words_status kind is_out }
{
    match kind {
        ErrorKind::OutOfMemory => failed(Fault::OutOfMemory, errors),
        ErrorKind::DisplayHelp | ErrorKind::DisplayVersion if is_out => DONE,
        ErrorKind::DisplayHelp | ErrorKind::DisplayVersion => failed(Fault::Stream, errors),
        _ => REFUSED,
    }
}
