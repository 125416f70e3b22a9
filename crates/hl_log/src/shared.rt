ghost use Rattle.std.specs.Prelude.{◌≡◌, ◌+◌, ◌*◌, ◌^◌, ◌<◌, ◌≤◌, length, IfSome};
ghost use Rattle.hl_words.specs.Cells.{cell_at, first_cell};
ghost use Rattle.hl_words.specs.Rows.{acted, first_master};
ghost use Rattle.hl_log.specs.Loads.{loaded_news, loaded_row, IsLaterNews};

use hl_model::{Sizes, cell_of};
use hl_pass::News;
use hl_words::{Row, RowMaster, RowRider, Which, first_cell};
use std::alloc::Global;

/// How many passes and pages a log can have in all, more than any program makes. Past it none is made, as where the
/// owners of the words can't be counted further.
const RIDERS: usize = 1 << 62;

/// What a log and its passes share with no lock: the words of the frames, and four words that the log's calls
/// store and passes load.
#[derive(Drop)]
pub struct Shared {
    pub(crate) words: Row,
    pub(crate) sizes: Sizes,
    ghost fits: { words.cells ≡ sizes.frames * sizes.page_size },
}

impl Shared {
    /// Returns words that are all 0, and their master, who dealt out no rider yet, or None if memory is refused.
    pub(crate) fn open(alloc: Global, sizes: Sizes) -> Option<(Shared, RowMaster)>
        ensures sizes { IfSome result (λ opened. opened.0.sizes ≡ sizes) }
        ensures master { IfSome result (λ opened. opened.1 ≡ first_master (2 ^ 62) opened.0.words.table) }
    {
        let cells = sizes.frames() * sizes.page_size();
        let (words, master) = Row::open(alloc, cells as usize, RIDERS).ok()?;
        Some((Shared { words, sizes }, master))
    }

    /// The cell of an address.
    #[inline(always)]
    pub(crate) fn cell(&self, address: u64) -> u64
        ensures value { result ≡ cell_at self.now.sizes address }
        ensures in_range { result < self.now.words.cells }
    {
        cell_of(self.sizes, address)
    }

    /// The first cell of a page. From it on the page has P cells.
    #[inline(always)]
    pub(crate) fn first_cell(&self, page: u64) -> u64
        ensures value { result ≡ first_cell self.now.sizes page }
        ensures room { result + self.now.sizes.page_size ≤ self.now.words.cells }
    {
        first_cell(self.sizes, page)
    }

    /// Loads the words from an address on, as many as there are places.
    pub(crate) fn load_row(&self, rider: &mut RowRider, address: u64, out: &mut [u64])
        requires there { rider.old.table ≡ self.now.words.table }
        requires range { address + length out.old < 2 ^ 64 }
        ensures rider { rider.new ≡ acted (loaded_row self.now.sizes address out.new) rider.old }
        ensures places { length out.new ≡ length out.old }
    {
        for k in 0..out.len() {
            let cell = self.cell(address + k as u64);
            out[k] = self.words.load_cell(rider, cell);
        }
    }

    /// Loads the three words that tell a pass of something new.
    #[inline(always)]
    pub(crate) fn news(&self, rider: &mut RowRider) -> News
        requires { rider.old.table ≡ self.now.words.table }
        ensures did { rider.new ≡ acted (loaded_news result) rider.old }
        ensures later { IsLaterNews result rider.old.view }
    {
        let read_only = self.words.load_offset(rider, Which::ReadOnly);
        let head = self.words.load_offset(rider, Which::Head);
        let ended = self.words.load_offset(rider, Which::Ended);
        News {
            read_only,
            head,
            ended,
        }
    }
}
