//! Runs scripts of steps: `hl_tool run` reads one on standard input and writes its text, with `--flush` also the
//! images of its pages; `hl_tool slow` computes the same text from the list of steps; `hl_tool report` writes the
//! quantities that the script left; `hl_tool judge` holds an engine's replies to a script against the definitions.
//! `hl_tool race` runs threads against each other, and audits what they left.
#![tactic(auto)]

use hl_command_line::command;
use hl_commands::{REFUSED, failed};
use hl_model::Fault;
use std::io::{BufWriter, ErrorKind, Write};
use std::process::ExitCode;
use std::{env, io};

fn main(rt: HostRuntime) -> io::Result<ExitCode> {
    let words = match env::args(&rt) {
        Ok(words) => words.collect::<Vec<String>>(rt.alloc()).ok(),
        Err(error) if error.kind() == ErrorKind::InvalidData => {
            let _ = rt.stderr().write_all(b"error: a word isn't UTF-8\n");
            return Ok(ExitCode::from(REFUSED));
        }
        Err(_) => None,
    };
    let output = BufWriter::new(rt.alloc(), rt.stdout());
    let (Some(words), Ok(mut output)) = (words, output) else {
        let status = failed(Fault::OutOfMemory, &mut rt.stderr());
        return Ok(ExitCode::from(status));
    };
    let status = command(
        &rt,
        rt.alloc(),
        &words,
        &mut rt.stdin(),
        &mut output,
        &mut rt.stderr(),
    );
    Ok(ExitCode::from(status))
}
