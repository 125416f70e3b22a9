//! Answers scripts until the whole program is proved: `hl_first run`, `run --flush`, `slow`, `report` and `judge` do
//! what `hl_tool` does by these words. It has no command line to put together and no race, so that it is read and proved
//! sooner. Tests have one command more, `scan`, which is `run` over the other table of epochs. No other words are taken.
#![tactic(auto)]

use hl_commands::{REFUSED, judge, report, run, scan, slow};
use std::io::{BufWriter, Write};
use std::process::ExitCode;
use std::{env, io};

const USAGE: &[u8] =
    b"usage: hl_first run [--flush] | slow | report, with a SCRIPT on standard input, or judge, with a TRACE\n";

fn main(rt: HostRuntime) -> io::Result<ExitCode> {
    let words = env::args(&rt)?.collect::<Vec<String>>(rt.alloc())?;
    let mut output = BufWriter::new(rt.alloc(), rt.stdout())?;
    let (alloc, input, errors) = (rt.alloc(), &mut rt.stdin(), &mut rt.stderr());
    let (form, flag) = match &words[..] {
        [_, form] => (form.as_str(), None),
        [_, form, flag] => (form.as_str(), Some(flag.as_str())),
        _ => ("", None),
    };
    let status = match (form, flag) {
        ("run", None) => run(alloc, false, input, &mut output, errors),
        ("run", Some("--flush")) => run(alloc, true, input, &mut output, errors),
        ("scan", None) => scan(alloc, false, input, &mut output, errors),
        ("scan", Some("--flush")) => scan(alloc, true, input, &mut output, errors),
        ("slow", None) => slow(alloc, input, &mut output, errors),
        ("report", None) => report(alloc, input, &mut output, errors),
        ("judge", None) => judge(alloc, input, &mut output, errors),
        _ => {
            errors.write_all(USAGE)?;
            REFUSED
        }
    };
    Ok(ExitCode::from(status))
}
