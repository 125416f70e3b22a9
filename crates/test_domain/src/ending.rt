//! What is left of one that was asked, as text.
use crate::jobs::{Anything, Tells};
use crate::play::Play;
use hl_domain::Ending;
use hl_epoch::Epochs;
use hl_laws::Base;
use hl_line::{Line, print_line};
use hl_model::Kind;
use hl_words::Realm;
use itoa::Buffer;
use std::alloc::AllocError;

// A word and numbers.
fn put(text: &mut String, word: &str, numbers: &[u64]) -> Result<(), AllocError> {
    text.push_str(word)?;
    for number in numbers {
        text.push_str(" ")?;
        text.push_str(Buffer::new().format(*number))?;
    }
    Ok(())
}

/// How many steps the idle riders and the one without a slot entered.
pub(crate) fn put_shares<E: Epochs + Drop, L: Realm>(
    text: &mut String,
    play: &Play<E, L>,
) -> Result<(), AllocError> {
    text.push_str("shares")?;
    for rider in play.idle.iter() {
        put(text, "", &[rider.share()])?;
    }
    put(text, "", &[play.rider.share()])?;
    text.push_str("\n")
}

/// How many steps were cut, their base, what nobody took, which is given up, and the journal.
pub(crate) fn put_ending(
    text: &mut String,
    ending: &mut Ending<Tells, Anything>,
) -> Result<(), AllocError> {
    put(text, "cut", &[ending.cut])?;
    put_base(text, &ending.base)?;
    for _ in 0..ending.left.pending_count() {
        let Some(it) = ending.left.pending_at(0) else {
            break;
        };
        match it.kind {
            Kind::User(tag) => put(text, "\nleft user", &[it.ticket, tag])?,
            Kind::Settle(x) => put(text, "\nleft settle", &[it.ticket, x])?,
            Kind::Close(x) => put(text, "\nleft close", &[it.ticket, x])?,
        }
        if ending.left.give_up().is_none() {
            text.push_str(" and isn't there")?;
        }
    }
    if ending.left.give_up().is_some() {
        text.push_str("\nleft one more")?;
    }
    put(text, "\njournal", &[ending.journal.len() as u64])?;
    for step in ending.journal.iter() {
        text.push_str("\n")?;
        text.push_str(print_line(&Line::Step(*step)).as_str())?;
    }
    text.push_str("\n")
}

// The epoch, how many actions were pending and taken, and the offsets; each slot's epoch and view, and each frame's
// page and marks.
fn put_base(text: &mut String, base: &Base) -> Result<(), AllocError> {
    let (pending, taken) = (base.waiting().len() as u64, base.taken().len() as u64);
    put(text, "\nbase", &[base.epoch(), pending, taken])?;
    let six = base.six();
    put(text, "", &[six.closed, six.head, six.flushed])?;
    put(text, "", &[six.safe_read_only, six.read_only, six.tail])?;
    for slot in base.slots().iter() {
        text.push_str(", slot")?;
        if let Some(slot) = slot {
            let view = slot.view;
            put(
                text,
                "",
                &[slot.epoch, view.read_only, view.head, view.tail],
            )?;
        }
    }
    for held in base.frames().iter() {
        text.push_str(", frame")?;
        if let Some(held) = held {
            let (flushed, in_flight) = (held.flushed as u64, held.in_flight as u64);
            let (freed, cleaning) = (held.freed as u64, held.cleaning as u64);
            put(text, "", &[held.page, flushed, in_flight, freed, cleaning])?;
        }
    }
    Ok(())
}
