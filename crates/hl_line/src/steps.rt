//! The lines of steps: how each is printed, and the step that the words of a line look like.
ghost use Rattle.std.specs.Prelude.{◌≡◌, []};
ghost use Rattle.hl_model.specs.declared.step.Step.TheVariants.{FlushDone};
ghost use Rattle.hl_line.specs.Lines.{step_spelling};
ghost use Rattle.hl_line.specs.Reading.{beside, epoch_steps, word_steps, flush_steps, clean_steps, step_with};

use crate::text::append;
use crate::word::number;
use arrayvec::ArrayString;
use hl_model::Step;

/// Writes the spelling of a step's line on an empty row.
#[tactic(auto, using(crate::proofs::Texts::word_length, crate::proofs::Texts::number_length, crate::proofs::Texts::pair_length, crate::proofs::Texts::triple_length))]
pub(crate) fn write_step(text: &mut ArrayString<80>, step: Step)
    requires { text.old.bytes ≡ [] }
    ensures { text.new.bytes ≡ step_spelling step }
{
    match step {
        Step::Acquire { t } => append(text, "acquire", &[t]),
        Step::Refresh { t } => append(text, "refresh", &[t]),
        Step::Release { t } => append(text, "release", &[t]),
        Step::Bump { tag } => append(text, "bump", &[tag]),
        Step::Settle => append(text, "settle", &[]),
        Step::Close => append(text, "close", &[]),
        Step::Bare => append(text, "bare", &[]),
        Step::Take => append(text, "take", &[]),
        Step::Done { ticket } => append(text, "done", &[ticket]),
        Step::Raise { x } => append(text, "raise", &[x]),
        Step::Shift { x } => append(text, "shift", &[x]),
        Step::Allocate { t, n } => append(text, "alloc", &[t, n]),
        Step::Look { t, read_only, head } => append(text, "look", &[t, read_only, head]),
        Step::Write { t, a, v } => append(text, "write", &[t, a, v]),
        Step::Read { t, a } => append(text, "read", &[t, a]),
        Step::FlushTake => append(text, "flush take", &[]),
        Step::FlushDone { page, ok } => write_flush_done(text, page, ok),
        Step::CleanTake => append(text, "clean take", &[]),
        Step::CleanDone { page } => append(text, "clean done", &[page]),
    }
}

/// Writes the line of a flush that ended on an empty row: its page, and whether it went well.
#[tactic(auto, using(crate::proofs::Texts::number_length))]
fn write_flush_done(text: &mut ArrayString<80>, page: u64, ok: bool)
    requires { text.old.bytes ≡ [] }
    ensures { text.new.bytes ≡ step_spelling (FlushDone page ok) }
{
    append(text, "flush done", &[page]);
    text.push_str(if ok { " ok" } else { " failed" });
}

/// The step of a keyword with these words after it, if it is one.
#[tactic(auto, unfolding(crate::specs::Reading::step_with))]
pub(crate) fn step_with(keyword: &[u8], first: &[u8], second: &[u8], third: &[u8]) -> Option<Step>
    ensures { result ≡ step_with keyword.now first.now second.now third.now }
{
    let (a, b, c) = (number(first), number(second), number(third));
    if keyword == b"flush".as_slice() {
        flush_step(first, b, third)
    } else if keyword == b"clean".as_slice() {
        clean_step(first, b)
    } else {
        epoch_step(keyword, a).or_else(|| word_step(keyword, a, b, c))
    }
}

/// The step of one of the keywords of the epochs and their actions.
fn epoch_step(keyword: &[u8], a: u64) -> Option<Step>
    ensures { result ≡ beside keyword.now (epoch_steps a) }
{
    if keyword == b"acquire".as_slice() {
        Some(Step::Acquire { t: a })
    } else if keyword == b"refresh".as_slice() {
        Some(Step::Refresh { t: a })
    } else if keyword == b"release".as_slice() {
        Some(Step::Release { t: a })
    } else if keyword == b"bump".as_slice() {
        Some(Step::Bump { tag: a })
    } else if keyword == b"settle".as_slice() {
        Some(Step::Settle)
    } else if keyword == b"close".as_slice() {
        Some(Step::Close)
    } else if keyword == b"bare".as_slice() {
        Some(Step::Bare)
    } else if keyword == b"take".as_slice() {
        Some(Step::Take)
    } else if keyword == b"done".as_slice() {
        Some(Step::Done { ticket: a })
    } else {
        None
    }
}

/// The step of one of the keywords of the offsets and the words.
fn word_step(keyword: &[u8], a: u64, b: u64, c: u64) -> Option<Step>
    ensures { result ≡ beside keyword.now (word_steps a b c) }
{
    if keyword == b"raise".as_slice() {
        Some(Step::Raise { x: a })
    } else if keyword == b"shift".as_slice() {
        Some(Step::Shift { x: a })
    } else if keyword == b"alloc".as_slice() {
        Some(Step::Allocate { t: a, n: b })
    } else if keyword == b"look".as_slice() {
        Some(Step::Look {
            t: a,
            read_only: b,
            head: c,
        })
    } else if keyword == b"write".as_slice() {
        Some(Step::Write { t: a, a: b, v: c })
    } else if keyword == b"read".as_slice() {
        Some(Step::Read { t: a, a: b })
    } else {
        None
    }
}

/// The step of what follows `flush`: a word, a page and how the flush ended.
fn flush_step(word: &[u8], page: u64, last: &[u8]) -> Option<Step>
    ensures { result ≡ beside word.now (flush_steps page last.now) }
{
    if word == b"take".as_slice() {
        Some(Step::FlushTake)
    } else if word == b"done".as_slice() {
        let ok = last == b"ok".as_slice();
        Some(Step::FlushDone { page, ok })
    } else {
        None
    }
}

/// The step of what follows `clean`: a word and a page.
fn clean_step(word: &[u8], page: u64) -> Option<Step>
    ensures { result ≡ beside word.now (clean_steps page) }
{
    if word == b"take".as_slice() {
        Some(Step::CleanTake)
    } else if word == b"done".as_slice() {
        Some(Step::CleanDone { page })
    } else {
        None
    }
}
