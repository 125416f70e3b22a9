ghost use Rattle.std.specs.Prelude.{◌≡◌, ◌≤◌, ◌^◌, IfOk, IfErr, Some};
ghost use Rattle.std.specs.Option.{option_copied};
ghost use Rattle.hl_image.specs.Pages.{opened, image_at, is_refused, IsStored, IsRefused};

mod row;

use crate::writer::{PageWriter, with_one_more};
use hl_model::{Fault, with_room};
use row::Row;
use std::alloc::Global;
use std::marker::Model;

/// A writer that keeps the images of its pages in memory: a row of bytes for each page from 0 on. After
/// opening no call takes memory.
#[derive(Drop)]
pub struct MemoryWriter {
    rows: Vec<Row>,
    size: usize,
    // Counts up to the last number and stays there: no later write is then the one that is to fail.
    writes: u64,
    // No write is the write 0.
    fails_at: u64,
    failures: u64,
}

impl Model for MemoryWriter {
    ghost use Rattle.hl_image.specs.Pages.{Pages};

    ghost Value = { Pages };

    ghost use Rattle.hl_image.specs.Rows.{pages_of, IsKept};

    ghost view = { pages_of };

    ghost invariant = { IsKept };
}

impl MemoryWriter {
    /// Returns a writer of the pages 0 to `pages` - 1, each of `bytes` bytes. None is written, and no write
    /// is to fail.
    ///
    /// Fault: `OutOfMemory` if memory is refused.
    pub fn open(alloc: Global, pages: u64, bytes: u64) -> Result<MemoryWriter, Fault>
        ensures ok { IfOk result (λ writer. writer ≡ opened pages bytes) }
        ensures err { IfErr result (λ fault. fault ≡ Fault.OutOfMemory) }
    {
        let size = bytes as usize;
        let mut rows = with_room(alloc, pages)?;
        for _ in 0..pages {
            rows.push_reserved(Row::open(alloc, size)?);
        }
        Ok(MemoryWriter {
            rows,
            size,
            writes: 0,
            fails_at: 0,
            failures: 0,
        })
    }

    /// From now on the k-th write fails, counted from 1 at the opening, and no other but for its page or its
    /// length. With 0 none does.
    pub fn fail_at(&mut self, k: u64)
        ensures { self.new ≡ record self.old { fails_at = k } }
    {
        self.fails_at = k;
    }

    /// Returns the bytes of a page, or None until a write of that page returned Ok, and beyond the last page.
    pub fn image(&self, page: u64) -> Option<&[u8]>
        ensures { option_copied result ≡ image_at page self.now }
    {
        self.rows.get(page as usize)?.image()
    }

    // Whether a write of so many bytes fails: it is the one that is to fail, there is no such page, or an
    // image hasn't that many.
    fn refuses(&self, page: u64, len: usize) -> bool
        ensures { result ≡ is_refused self.now page len }
    {
        let is_due = self.fails_at.saturating_sub(self.writes) == 1;
        let is_beyond = page >= self.rows.len() as u64;
        is_due || is_beyond || len != self.size
    }
}

impl PageWriter for MemoryWriter {
    ghost wrote = { IsStored };

    ghost failed = { IsRefused };

    ghost failures = { λ writer. writer.failures };

    ghost has = { λ writer page bytes. image_at page writer ≡ Some bytes };

    fn write_page(&mut self, page: u64, bytes: &[u8]) -> Result<(), Fault> {
        let is_refused = self.refuses(page, bytes.len());
        self.writes = self.writes.saturating_add(1);
        if is_refused {
            self.failures = with_one_more(self.failures);
            return Err(Fault::Device);
        }
        self.rows[page as usize].store(bytes);
        Ok(())
    }

    fn failures(&self) -> u64 {
        self.failures
    }
}
