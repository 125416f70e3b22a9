//! The words of a page that was taken, without the lock.
ghost use Rattle.std.specs.Prelude.{◌≡◌, IfSome, length};
ghost use Rattle.hl_model.specs.Replies.{unless_fault, unless_refused};
ghost use Rattle.hl_log.specs.Taken.{copied, copy_fault, sweep_fault, swept};

use crate::shared::Shared;
use crate::taken::Taken;
use hl_model::Fault;

impl Taken {
    /// Its number: its first word has the address P times this.
    #[inline(always)]
    pub fn page(&self) -> u64
        ensures { result ≡ self.now.page }
    {
        self.page
    }

    /// Loads its words into so many places.
    ///
    /// Faults: `NotInFlight` if it was taken to be cleaned, `Size` if there are not as many places as a page
    /// has words; then nothing is loaded.
    pub fn copy(&mut self, words: &mut [u64]) -> Result<(), Fault>
        ensures answer { result ≡ unless_fault (copy_fault self.old (length words.old)) tt }
        ensures did { self.new ≡ unless_refused (copy_fault self.old (length words.old)) self.old
            (copied words.new self.old) }
        ensures kept { IfSome (copy_fault self.old (length words.old)) (λ _. words.new ≡ words.old) }
        ensures places { length words.new ≡ length words.old }
    {
        if self.cleans {
            return Err(Fault::NotInFlight);
        }
        let shared: &Shared = &self.shared;
        if words.len() as u64 != shared.sizes.page_size() {
            return Err(Fault::Size);
        }
        let first = shared.first_cell(self.page);
        shared.words.load_cells(&mut self.rider, first, words);
        Ok(())
    }

    /// Stores 0 in each of its words.
    ///
    /// `NotCleaning` if it was taken to be flushed; then nothing is stored.
    pub fn sweep(&mut self) -> Result<(), Fault>
        ensures answer { result ≡ unless_fault (sweep_fault self.old) tt }
        ensures swept { self.new ≡ unless_refused (sweep_fault self.old) self.old (swept self.old) }
    {
        if !self.cleans {
            return Err(Fault::NotCleaning);
        }
        let shared: &Shared = &self.shared;
        let first = shared.first_cell(self.page);
        let places = shared.sizes.page_size();
        shared.words.zero_cells(&mut self.rider, first, places);
        self.swept = true;
        Ok(())
    }
}
