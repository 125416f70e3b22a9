ghost use Rattle.hl_model.specs.declared.step.Step.TheVariants.{Raise as RAISE, Shift as SHIFT, Allocate as ALLOCATE, Look as LOOK, Write as WRITE, Read as READ};
ghost use Rattle.hl_core.specs.Steps.{Made};
ghost use Rattle.hl_c.specs.Doors.{Answers, AnswersBriefly};

use crate::door::Door;
use crate::handle::Handle;
use hl_answers::{Brief, Outcome};
use hl_model::{Fault, Reply, Step};

/// Moves the read-only offset up to an address.
#[unsafe(no_mangle)]
pub extern "C" fn hl_raise(handle: &mut Handle, address: u64) -> Brief
    ensures { AnswersBriefly handle.old.slot.value (RAISE address) handle.new.slot.value result }
{
    let step = Step::Raise { x: address };
    handle.step_briefly(step, |core| core.raise(address).map(Reply::Raised))
}

/// Moves the head up to an address.
#[unsafe(no_mangle)]
pub extern "C" fn hl_shift(handle: &mut Handle, address: u64) -> Brief
    ensures { AnswersBriefly handle.old.slot.value (SHIFT address) handle.new.slot.value result }
{
    let step = Step::Shift { x: address };
    handle.step_briefly(step, |core| core.shift(address).map(Reply::Shifted))
}

/// Places a record of so many words for a slot: its address.
#[unsafe(no_mangle)]
pub extern "C" fn hl_allocate(handle: &mut Handle, slot: u64, words: u64) -> Brief
    ensures { AnswersBriefly handle.old.slot.value (ALLOCATE slot words) handle.new.slot.value result }
{
    let step = Step::Allocate { t: slot, n: words };
    handle.step_briefly(step, |core| core.allocate(slot, words).map(Reply::At))
}

/// A slot sees these two offsets: its view.
#[unsafe(no_mangle)]
pub extern "C" fn hl_look(handle: &mut Handle, slot: u64, read_only: u64, head: u64) -> Outcome
    ensures { Answers handle.old.slot.value (LOOK slot read_only head) handle.new.slot.value result }
{
    let step = Step::Look {
        t: slot,
        read_only,
        head,
    };
    handle.step(
        step,
        |core| core.look(slot, read_only, head).map(Reply::Looked),
    )
}

/// Whether a slot may write a word. The words themselves are the caller's.
#[unsafe(no_mangle)]
pub extern "C" fn hl_write(handle: &mut Handle, slot: u64, address: u64, value: u64) -> Brief
    ensures { AnswersBriefly handle.old.slot.value (WRITE slot address value) handle.new.slot.value result }
{
    let step = Step::Write {
        t: slot,
        a: address,
        v: value,
    };
    handle.step_briefly(step, |core| written(core, slot, address, value))
}

/// Whether a slot may read a word.
#[unsafe(no_mangle)]
pub extern "C" fn hl_read(handle: &mut Handle, slot: u64, address: u64) -> Brief
    ensures { AnswersBriefly handle.old.slot.value (READ slot address) handle.new.slot.value result }
{
    let step = Step::Read {
        t: slot,
        a: address,
    };
    handle.step_briefly(step, |core| {
        core.may_read(slot, address)?;
        Ok(Reply::Readable)
    })
}

/// A write, of whatever value: it changes nothing of a core.
#[inline(always)]
fn written(core: &mut Door, slot: u64, address: u64, _value: u64) -> Result<Reply, Fault>
    ensures { Made (λ t. t.0) core.old (WRITE slot address _value) core.new result }
{
    core.may_write(slot, address).map(|()| Reply::Written)
}
