//! A call of an example as text: a line of a script, or a word of its own for what a domain alone has.
use hl_line::{Line, print_fault, print_reply, read_line};
use hl_model::{Fault, Reply, Step};

/// A call.
#[derive(Clone, Copy)]
pub(crate) enum Call {
    /// The step of a script's line. A look is told what it sees.
    Step(Step),
    /// `abandon t`: the pass of slot t is given up, and its rider comes back.
    Abandon(u64),
    /// `claim t`: slot t is asked for by the rider that makes what needs no slot.
    Claim(u64),
    /// `stamp t`: the stamp of slot t's pass.
    Stamp(u64),
    /// `forsake p`: page p, which is in flight, is given up.
    Forsake(u64),
    /// `cut`: the journal is cut, which answers how many steps it had.
    Cut,
}

/// The call that is spelled so, if there is one. A look, which a script tells what it sees, is `look t` here.
pub(crate) fn read_call(text: &str) -> Option<Call> {
    if text == "cut" {
        return Some(Call::Cut);
    }
    let Some((word, number)) = text.split_once(" ") else {
        return read_step(text);
    };
    match (word, number.parse::<u64>()) {
        ("look", Ok(t)) => Some(Call::Step(Step::Look {
            t,
            read_only: 0,
            head: 0,
        })),
        ("abandon", Ok(t)) => Some(Call::Abandon(t)),
        ("claim", Ok(t)) => Some(Call::Claim(t)),
        ("stamp", Ok(t)) => Some(Call::Stamp(t)),
        ("forsake", Ok(page)) => Some(Call::Forsake(page)),
        _ => read_step(text),
    }
}

fn read_step(text: &str) -> Option<Call> {
    match read_line(text.as_bytes())? {
        Line::Step(Step::Look { .. }) => None,
        Line::Step(step) => Some(Call::Step(step)),
        _ => None,
    }
}

/// Whether this is what was told, in the spelling of a script's answers.
pub(crate) fn is_told(told: Result<Reply, Fault>, text: &str) -> bool {
    match told {
        Ok(reply) => print_reply(&reply).as_bytes() == text.as_bytes(),
        Err(fault) => print_fault(&fault).as_bytes() == text.as_bytes(),
    }
}
