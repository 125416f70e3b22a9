ghost use Rattle.std.specs.Prelude.{◌≡◌, true};
ghost use Rattle.hl_crew.specs.Pages.{Copies};
ghost use Rattle.hl_crew.specs.Riders.{WritesPage, FailsPage};

use crate::gate::{Gate, Taken};
use crate::run::Run;
use crate::writer::WriterState;
use hl_action::{Promise, Task};
use hl_epoch::Epochs;
use hl_image::{PageWriter, image_of};
use hl_words::Realm;
use std::sync::Wait;
use std::thread;

/// How often a writer asks whether it may write a page.
const ASKS: u32 = 1_000_000;

/// That the write of a page ended, well or not. Only `Run::write` makes one, so nobody else can report a page as
/// written.
#[derive(Clone, Copy)]
pub(crate) struct Acknowledgement {
    page: u64,
    ok: bool,
}

impl Acknowledgement {
    /// Returns the page.
    pub(crate) fn page(&self) -> u64
        ensures { result ≡ self.now.page }
    {
        self.page
    }

    /// Returns whether it was written.
    pub(crate) fn ok(&self) -> bool
        ensures { result ≡ self.now.ok }
    {
        self.ok
    }
}

impl<R: Wait, E: Epochs + Drop, F: Task, P: Promise, L: Realm, G: Gate> Run<'_, R, E, F, P, L, G> {
    /// Copies the words of a page, and writes its image, once the gate lets it.
    pub(crate) fn write<W: PageWriter>(
        &self,
        own: &mut WriterState<L, W>,
        taken: Taken,
    ) -> Acknowledgement
        ensures counts { own.new.counts ≡ own.old.counts }
        ensures page { result.page ≡ taken.job.page }
        ensures copies { Copies (G.lets self.now.gate.now) (WritesPage W.has W.wrote)
            (FailsPage W.has W.failed) W.failures self.now.domain.now.sizes result.ok taken.job
            own.old.rider own.new.rider own.old.pages own.new.pages }
    {
        let page = taken.page();
        if !self.may_write(taken) {
            return Acknowledgement { page, ok: false };
        }
        self.domain.known();
        let buffers = &mut own.buffers;
        let copied = self
            .domain
            .copy_page(taken.job(), &mut own.rider, &mut buffers.words);
        if copied.is_err() {
            return Acknowledgement { page, ok: false };
        }
        image_of(page, &buffers.words, &mut buffers.image);
        match own.pages.write_page(page, &buffers.image) {
            Ok(()) => Acknowledgement { page, ok: true },
            Err(_) => Acknowledgement { page, ok: false },
        }
    }

    // Returns whether the gate lets the page be written. Between two asks other threads go on.
    fn may_write(&self, taken: Taken) -> bool
        ensures { result ≡ true → G.lets self.now.gate.now taken.job.page }
    {
        self.gate.begun(taken);
        for _ in 0..ASKS {
            if self.gate.may_write(taken.page()) {
                return true;
            }
            thread::yield_now();
        }
        false
    }
}
