//! What a log is at, as lines of text.
ghost use Rattle.std.specs.Prelude.{◌≡◌, ◌++◌, OnOk, OnErr, IfErr, MatchResult};
ghost use Rattle.std.specs.List.{flat_map};
ghost use Rattle.std.specs.Io.KnownBytes.{Appends};
ghost use Rattle.hl_model.specs.declared.fault.Fault.TheVariants.{Stream};
ghost use Rattle.hl_line.specs.Streams.{BreaksOff};
ghost use Rattle.hl_monitor.specs.Reports.{report_text};
ghost use Rattle.hl.specs.Reports.{action_text, holder_text, oldest_text, refused_text, Reports};

use crate::log::Log;
use hl_action::{Promise, Task};
use hl_domain::{ArrayVec, Holder};
use hl_epoch::Epochs;
use hl_model::{Fault, Snapshot};
use hl_monitor::put_lines;
use hl_words::Realm;
use std::io::Write;
use std::sync::Wait;

/// How many slots are told that hold the oldest action up.
pub(crate) const HOLDERS: usize = 64;

/// Writes what a log is at: the eighteen lines of `hl_monitor`'s report, and if an action is pending, a line `oldest` with
/// the ticket of the oldest one, and for each slot that holds it up, the first 64 of them, a line `holder` with its number
/// and a line `at_epoch` with its epoch. Each line has a label left in 16 places and a number right in 20.
///
/// It takes the lock twice, once for the quantities and once for the holders, and makes no step. It is for who has no
/// session: [`Session::report`](crate::Session::report) tells of which lists its answers are. Fault: `Stream` if a write
/// failed or took no byte; a beginning of the report was then written, and not all of it.
pub fn report<R, L, F, P, E, W>(rt: &R, log: &Log<L, F, P, E>, writer: &mut W) -> Result<(), Fault>
where
    R: Wait,
    L: Realm,
    F: Task,
    P: Promise,
    E: Epochs + Drop,
    W: Write,
    ensures { Reports F log.now result (W.contents writer.old) (W.contents writer.new) }
{
    let told = log.snapshot(rt);
    let mut holders = ArrayVec::<Holder, HOLDERS>::new();
    let oldest = log.holders(rt, &mut holders);
    put_report(writer, &told, oldest, holders.as_slice())
}

/// Writes the lines of a report.
pub(crate) fn put_report<W: Write>(
    writer: &mut W,
    told: &(Snapshot, u64, u64),
    oldest: Option<u64>,
    holders: &[Holder],
) -> Result<(), Fault>
    ensures { let text = report_text told.now.0 told.now.1 told.now.2 ++ oldest_text oldest holders.now
        in MatchResult result (λ _. Appends (W.contents writer.old) (W.contents writer.new) text)
        (λ fault. (fault ≡ Stream) × BreaksOff (W.contents writer.old) (W.contents writer.new) text) }
{
    let (now, steps, cut) = *told;
    match hl_monitor::report(&now, steps, cut, writer) {
        Ok(()) => put_oldest(writer, oldest, holders),
        Err(fault) => Err(fault),
    }
}

/// Writes how many of the newest writes the device refused, one after another, if it refused any.
pub(crate) fn put_refused<W: Write>(writer: &mut W, refused: u64) -> Result<(), Fault>
    ensures ok { OnOk result (Appends (W.contents writer.old) (W.contents writer.new) (refused_text refused)) }
    ensures err { IfErr result (λ fault. fault ≡ Stream) }
    ensures left { OnErr result
        (BreaksOff (W.contents writer.old) (W.contents writer.new) (refused_text refused)) }
{
    if refused == 0 {
        return Ok(());
    }
    put_lines(writer, &[("refused_writes", refused)])
}

// Writes the lines of the oldest action, if there is one.
fn put_oldest<W: Write>(
    writer: &mut W,
    oldest: Option<u64>,
    holders: &[Holder],
) -> Result<(), Fault>
    ensures ok { OnOk result
        (Appends (W.contents writer.old) (W.contents writer.new) (oldest_text oldest holders.now)) }
    ensures err { IfErr result (λ fault. fault ≡ Stream) }
    ensures left { OnErr result
        (BreaksOff (W.contents writer.old) (W.contents writer.new) (oldest_text oldest holders.now)) }
{
    match oldest {
        Some(ticket) => put_action(writer, ticket, holders),
        None => Ok(()),
    }
}

// Writes the lines of an action, and of who holds it up.
fn put_action<W: Write>(writer: &mut W, ticket: u64, holders: &[Holder]) -> Result<(), Fault>
    ensures ok { OnOk result
        (Appends (W.contents writer.old) (W.contents writer.new) (action_text ticket holders.now)) }
    ensures err { IfErr result (λ fault. fault ≡ Stream) }
    ensures left { OnErr result
        (BreaksOff (W.contents writer.old) (W.contents writer.new) (action_text ticket holders.now)) }
{
    match put_lines(writer, &[("oldest", ticket)]) {
        Ok(()) => put_holders(writer, holders),
        Err(fault) => Err(fault),
    }
}

// Writes the lines of each of these slots.
fn put_holders<W: Write>(writer: &mut W, holders: &[Holder]) -> Result<(), Fault>
    ensures ok { OnOk result
        (Appends (W.contents writer.old) (W.contents writer.new) (flat_map holder_text holders.now)) }
    ensures err { IfErr result (λ fault. fault ≡ Stream) }
    ensures left { OnErr result
        (BreaksOff (W.contents writer.old) (W.contents writer.new) (flat_map holder_text holders.now)) }
{
    for holder in holders {
        match put_holder(writer, *holder) {
            Ok(()) => {}
            Err(fault) => return Err(fault),
        }
    }
    Ok(())
}

// Writes the two lines of a slot.
fn put_holder<W: Write>(writer: &mut W, holder: Holder) -> Result<(), Fault>
    ensures ok { OnOk result
        (Appends (W.contents writer.old) (W.contents writer.new) (holder_text holder)) }
    ensures err { IfErr result (λ fault. fault ≡ Stream) }
    ensures left { OnErr result
        (BreaksOff (W.contents writer.old) (W.contents writer.new) (holder_text holder)) }
{
    put_lines(
        writer,
        &[("holder", holder.slot), ("at_epoch", holder.epoch)],
    )
}
