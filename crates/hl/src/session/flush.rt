//! All that lies below an address written to the log's device.
ghost use Rattle.std.specs.Prelude.{◌≡◌, ◌⊎◌, ◌<◌, ◌≤◌, ◌^◌, IfOk, []};
ghost use Rattle.hl_model.specs.declared.fault.Fault.TheVariants.{AboveFlushed, Device as DEVICE};
ghost use Rattle.hl.specs.Flushes.{answer_at, due_at, DoesDue, Flushes, FlushesLog, Raises};
ghost use Rattle.hl.specs.Sessions.{KeepsAllButRider};
ghost use Rattle.hl.specs.Traces.{Meets, OnlyPads};

use super::Session;
use super::tries::{Cure, Helping};
use hl_action::{Promise, Task};
use hl_drain::Ask;
use hl_epoch::Epochs;
use hl_model::{Fault, Six};
use hl_words::Realm;
use std::sync::Wait;

/// What is due so that all below an address is written.
#[derive(Clone, Copy, PartialEq, Eq, Debug)]
pub enum Due {
    /// So many words are left of its page, and are to be placed: a page is flushed whole.
    Pad(u64),
    /// The read-only offset is to be raised to where its page ends.
    Raise(u64),
    /// The safe read-only offset has to follow.
    Settle,
    /// Others have to act: sessions refresh, and the crew writes pages.
    Wait,
}

impl Due {
    // What is due at these offsets.
    fn at(page_size: u64, six: &Six, address: u64, asked: bool) -> Due
        requires page { (0 < page_size) × (page_size ≤ 2 ^ 20) }
        requires tail { address ≤ 2 ^ 48 }
        ensures { result ≡ due_at page_size six.now address asked }
    {
        let end = page_size * address.div_ceil(page_size);
        if six.tail < end {
            Due::Pad(end - six.tail)
        } else if six.read_only < end {
            Due::Raise(end)
        } else if six.safe_read_only < end && !asked {
            Due::Settle
        } else {
            Due::Wait
        }
    }
}

// What a flush up to an address is answered at these offsets; `None` if it goes on.
fn answer(six: &Six, address: u64) -> Option<Result<u64, Fault>>
    ensures { result ≡ answer_at six.now address }
{
    if address <= six.flushed {
        Some(Ok(six.flushed))
    } else if six.tail < address {
        Some(Err(Fault::AboveTail))
    } else {
        None
    }
}

impl<'a, R: Wait, L: Realm, F: Task, P: Promise, E: Epochs + Drop> Session<'a, R, L, F, P, E> {
    /// Has all that lies below an address written to the log's device, and waits for it. Returns the flushed offset, which
    /// isn't below the address: the device has each page below it.
    ///
    /// Pages are flushed whole: if the address is on the page at the tail, the rest of that page is placed, and stays 0. The
    /// read-only offset is raised to the page's end, a settle is stored, and the crew is woken, which writes the pages; the
    /// session makes rounds of [`help`](Session::help) meanwhile, with a short nap behind each that ran no action, `again` at
    /// most. What a round is refused is tried again in the next. The log needs a crew beside the session, or somebody else who
    /// flushes what is sealed.
    ///
    /// Faults: `AboveTail` if the address is above the tail, and then nothing was done. After `again` rounds in vain `Device`
    /// if the crew's newest write was refused, else `AboveFlushed`: somebody doesn't refresh, or nobody flushes. The pages are
    /// still to be written then, and a later call goes on.
    pub fn flush(&mut self, address: u64, again: u32) -> Result<u64, Fault>
        ensures flushes { Flushes F F.gives P.keeps address again result self.old self.new }
        ensures reached { IfOk result (λ flushed. address ≤ flushed) }
        ensures did { OnlyPads self.old self.new }
        ensures log { self.new.log ≡ self.old.log }
        ensures beside { self.new.beside ≡ self.old.beside }
    {
        let page_size = self.log.params().page_size();
        let mut asked = false;
        for _ in 0..again {
            let (now, _, _) = self.snapshot();
            match answer(&now.six, address) {
                Some(told) => return told,
                None => {}
            }
            asked = self.do_due(Due::at(page_size, &now.six, address, asked), asked);
            let _ = self.help_by(Cure::Others);
        }
        let (now, _, _) = self.snapshot();
        match answer(&now.six, address) {
            Some(told) => told,
            None => Err(self.in_the_way()),
        }
    }

    // The same of the whole log, up to the tail of now.
    pub(crate) fn flush_log(&mut self, again: u32) -> Result<u64, Fault>
        ensures flushes { FlushesLog F F.gives P.keeps again self.old self.new result }
        ensures log { self.new.log ≡ self.old.log }
        ensures beside { self.new.beside ≡ self.old.beside }
    {
        let (now, _, _) = self.snapshot();
        self.flush(now.six.tail, again)
    }

    // Does what is due. Returns whether a settle is stored by then.
    fn do_due(&mut self, due: Due, asked: bool) -> bool
        ensures does { DoesDue F due asked result self.old self.new }
        ensures did { OnlyPads self.old self.new }
        ensures log { self.new.log ≡ self.old.log }
        ensures beside { self.new.beside ≡ self.old.beside }
    {
        match due {
            Due::Pad(words) => {
                let _ = self.allocate(words);
                asked
            }
            Due::Raise(end) => {
                let _ = self.raise(end);
                asked
            }
            Due::Settle => self.bump(Ask::Settle).is_ok(),
            Due::Wait => asked,
        }
    }

    // Why nothing more was flushed.
    fn in_the_way(&self) -> Fault
        ensures { (result ≡ DEVICE) ⊎ (result ≡ AboveFlushed) }
    {
        if self.refused_writes() > 0 {
            Fault::Device
        } else {
            Fault::AboveFlushed
        }
    }

    /// Moves the read-only offset up to x. Returns x.
    ///
    /// Faults: `JournalFull`, `NotAbove`, `AboveTail`.
    pub fn raise(&mut self, x: u64) -> Result<u64, Fault>
        ensures met { Raises F self.old.log x result self.old.pass.rider self.new.pass.rider }
        ensures same { IfOk result (λ raised. raised ≡ x) }
        ensures did { Meets [] self.old self.new }
        ensures kept { KeepsAllButRider self.old self.new }
    {
        self.log.raise(self.rt, self.pass.rider_mut(), x)
    }
}
