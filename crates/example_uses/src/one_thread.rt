use crate::say::say;
use hl_cells::{AnyAnswer, Engine, Fault, NoJob, Params};
use hl_counts::CountTable;
use hl_flush::flush_one;
use hl_image::MemoryWriter;
use std::alloc::Global;
use std::io::Write;

/// Fills a page with a record, settles it, flushes it to memory, closes it and frees its frame.
///
/// Faults: `OutOfMemory`; `Stream` if the writer fails.
pub(crate) fn run<W: Write>(alloc: Global, out: &mut W) -> Result<(), Fault> {
    // Pages of 4 words, 2 frames, 1 slot, 4 places for actions.
    let params = Params::checked(4, 2, 1, 4).ok_or(Fault::Size)?;
    let mut engine = Engine::<CountTable, NoJob, AnyAnswer>::open(alloc, params)?;
    let slot = engine.acquire(0)?;
    say(out, "epoch", slot.epoch)?;
    let end = settle_record(&mut engine, out)?;
    // Its page is sealed, and may be flushed.
    let page = flush_to_memory(alloc, &mut engine)?;
    say(out, "flushed page", page)?;
    let page = free_page(&mut engine, end)?;
    say(out, "freed page", page)?;
    engine.release(0)
}

// Fills a page with a record and settles it; returns the record's end.
fn settle_record<W: Write>(
    engine: &mut Engine<CountTable, NoJob, AnyAnswer>,
    out: &mut W,
) -> Result<u64, Fault> {
    let address = engine.allocate(0, 4)?;
    for word in 0..4 {
        engine.write(0, address + word, 10 + word)?;
    }
    say(out, "record at", address)?;

    // Once every slot has refreshed behind the raise, no write reaches the record.
    let end = address + 4;
    engine.raise(end)?;
    engine.settle()?;
    engine.refresh(0)?;
    finish_one(engine)?;
    say(out, "safe read-only offset", engine.six().safe_read_only)?;
    Ok(end)
}

// Writes the image of the next page into a device in memory; returns the page.
fn flush_to_memory(
    alloc: Global,
    engine: &mut Engine<CountTable, NoJob, AnyAnswer>,
) -> Result<u64, Fault> {
    let mut device = MemoryWriter::open(alloc, 2, 40)?;
    let size = 8 + 8 * engine.params().page_size() as usize;
    let mut image = vec![in alloc; 0; size].map_err(|_| Fault::OutOfMemory)?;
    flush_one(engine, &mut device, &mut image)
}

// Closes what lies below an offset and frees the frame of its page; returns the page.
fn free_page(engine: &mut Engine<CountTable, NoJob, AnyAnswer>, offset: u64) -> Result<u64, Fault> {
    engine.shift(offset)?;
    engine.close()?;
    // Once every slot has refreshed behind the shift, no read reaches the page, and its frame may be cleaned.
    engine.refresh(0)?;
    finish_one(engine)?;
    let page = engine.clean_take()?;
    engine.clean_done(page)
}

// Takes the oldest action, whose ticket is safe, and carries it out.
fn finish_one(engine: &mut Engine<CountTable, NoJob, AnyAnswer>) -> Result<(), Fault> {
    let ticket = engine.take()?;
    engine.done(ticket)?;
    Ok(())
}
