ghost use Rattle.std.specs.Prelude.{◌≡◌, ◌<◌, OnOk};
ghost use Rattle.hl_crew.specs.Goes.{UpTo};
ghost use Rattle.hl_crew.specs.Pouches.{load_count};
ghost use Rattle.hl_crew.specs.Turns.{send_of, SendsPage};

use crate::messages::{Channels, Message, Over};
use crate::pouch::Pouch;
use crate::run::Run;
use hl_action::{Promise, Task};
use hl_epoch::Epochs;
use hl_model::Fault;
use hl_words::{Realm, Rider};
use std::sync::Wait;

/// How many pages are sent in a turn, as many as a pouch holds.
const PAGES: u64 = 4;

impl<R: Wait, E: Epochs + Drop, F: Task, P: Promise, L: Realm, G> Run<'_, R, E, F, P, L, G> {
    /// Takes at most four pages to flush, puts each into the pouch, and sends it to the writers;
    /// counts those sent. If all is well, these are the pages of the pouch.
    #[tactic(auto, using(crate::proofs::GoesLaws::going))]
    pub(crate) fn send_pages(
        &self,
        channels: &Channels,
        rider: &mut Rider<L>,
        pouch: &mut Pouch,
        sent: &mut u64,
    ) -> Result<(), Over>
        requires empty { load_count pouch.old ≡ 0 }
        requires none { sent.old ≡ 0 }
        ensures sends { UpTo (SendsPage F self.now.domain.now) 4 result
            (send_of rider.old pouch.old sent.old) (send_of rider.new pouch.new sent.new) }
        ensures held { OnOk result (sent.new ≡ load_count pouch.new) }
    {
        for _ in 0..PAGES {
            match self.send_page(channels, rider, pouch, sent) {
                Ok(true) => {}
                Ok(false) => return Ok(()),
                Err(over) => return Err(over),
            }
        }
        Ok(())
    }

    // Takes a page to flush, puts it into the pouch, and sends it. False if none is sealed.
    fn send_page(
        &self,
        channels: &Channels,
        rider: &mut Rider<L>,
        pouch: &mut Pouch,
        sent: &mut u64,
    ) -> Result<bool, Over>
        requires room { sent.old < 4 }
        requires held { sent.old ≡ load_count pouch.old }
        ensures sends { SendsPage F self.now.domain.now 0 result
            (send_of rider.old pouch.old sent.old) (send_of rider.new pouch.new sent.new) }
        ensures held { OnOk result (sent.new ≡ load_count pouch.new) }
    {
        let load = match self.domain.flush_take(self.rt, rider) {
            Ok(load) => load,
            Err(Fault::NoneSealed) => return Ok(false),
            Err(fault) => return Err(Over::of(&fault)),
        };
        let taken = pouch.hold(load);
        if channels.jobs.send(self.rt, Message::Write(taken)).is_err() {
            return Err(Over::Lost);
        }
        *sent += 1;
        Ok(true)
    }
}
