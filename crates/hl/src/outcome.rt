//! What is left of a log that was opened, run and closed by one call.
ghost use Rattle.std.specs.Prelude.{◌≡◌, ◌*◌, ◌&&◌, nat_le, nat_lt, if◌then◌else◌, slice_index, Some, None};
ghost use Rattle.hl_keeper.specs.Passes.{cell_at};

use hl_action::{AnyAnswer, NoJob, Task};
use hl_crew::CrewReport;
use hl_domain::Ending;
use hl_model::{Fault, Sizes, cell_of};

/// What is left of a log each of whose threads has a result.
#[derive(Drop)]
pub struct Finished<T, F: Task = NoJob> {
    /// What the threads returned, by their numbers.
    pub outs: Vec<T>,
    /// What [`Work::finish`](crate::Work::finish) returned.
    pub last: Option<T>,
    /// The flushed offset, if the device has the whole log; else why not. `AboveFlushed` if nobody asked for that by
    /// [`Config::flush_at_end`](crate::Config::flush_at_end), if it didn't come to that within 100,000 rounds, or if `finish` placed more; `Device` if the
    /// device refused the newest write.
    pub flushed: Result<u64, Fault>,
    /// What the crew did, as in [`Returned`](crate::Returned).
    pub crew: Result<CrewReport, Fault>,
    /// What is left of the log.
    pub ending: Ending<F, AnyAnswer>,
    /// The log's sizes.
    pub sizes: Sizes,
}

impl<T, F: Task> Finished<T, F> {
    /// The word at an address, if it is in memory: from the closed offset to the tail. `None` elsewhere; below the flushed
    /// offset the device has it. For what [`run_threads`](crate::run_threads) returned its condition holds (`cells`).
    pub fn word(&self, address: u64) -> Option<u64>
        requires { self.now.ending.words.cells ≡ self.now.sizes.frames * self.now.sizes.page_size }
        ensures { let six = self.now.ending.snapshot.six in result
            ≡ (if nat_le six.closed address && nat_lt address six.tail
            then Some (slice_index self.now.ending.words.words (cell_at self.now.sizes address)) else None) }
    {
        let six = &self.ending.snapshot.six;
        if six.closed <= address && address < six.tail {
            Some(self.ending.words.cell(cell_of(self.sizes, address)))
        } else {
            None
        }
    }
}
