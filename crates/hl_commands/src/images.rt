ghost use Rattle.std.specs.Prelude.{◌≡◌, ◌⊎◌, List, ◌∷◌, length, IfOk, IfErr, OnOk, option_map};
ghost use Rattle.std.specs.Io.KnownBytes.{Appends};
ghost use Rattle.hl_model.specs.declared.fault.Fault.TheVariants.{Device, OutOfMemory};
ghost use Rattle.hl_model.specs.declared.step.Step.{Step as STEP};
ghost use Rattle.hl_cells.specs.Engines.{EngineStands};
ghost use Rattle.hl_flush.specs.Unflushed.{image_lines};

use hl_action::Task;
use hl_cells::Engine;
use hl_epoch::Epochs;
use hl_flush::flush_one;
use hl_image::HexWriter;
use hl_model::Fault;
use hl_script::Sum;
use std::alloc::Global;
use std::io;
use std::io::Write;

/// A borrowed writer, for what takes a writer of its own.
#[derive(Drop)]
struct Lent<'a, W> {
    writer: &'a mut W,
}

impl<W: Write> Write for Lent<'_, W> {
    // The reference's name stands before the bytes. So who is told what was appended can tell that the reference is the
    // same as before.
    ghost contents = { λ lent. option_map (λ bytes. lent.writer.ghost_name ∷ bytes)
        (W.contents lent.writer.now) };

    fn write(&mut self, buf: &[u8]) -> io::Result<usize> {
        self.writer.write(buf)
    }

    fn flush(&mut self) -> io::Result<()> {
        self.writer.flush()
    }
}

/// Writes the image of each page that can be flushed, one a line.
///
/// Faults: `OutOfMemory` if memory was refused; `Device` if a write failed.
pub(crate) fn write_images<E: Epochs + Drop, F: Task, W: Write>(
    alloc: Global,
    engine: Engine<E, F, Sum>,
    writer: &mut W,
) -> Result<(), Fault>
    ensures images { (A : List STEP) → EngineStands engine A → OnOk result
        (Appends (W.contents writer.old) (W.contents writer.new) (image_lines engine.core.sizes A)) }
    ensures faults { IfErr result (λ fault. (fault ≡ OutOfMemory) ⊎ (fault ≡ Device)) }
{
    let mut pages = HexWriter::new(Lent { writer });
    let ended = flush_pages(alloc, engine, &mut pages);
    let Lent { writer: back } = pages.into_inner();
    // No effect at run time. The proof reads from this use what the writer holds.
    let _ = &*back;
    ended
}

/// Flushes each page that can be flushed. Faults: as for `write_images`.
fn flush_pages<E: Epochs + Drop, F: Task, W: Write>(
    alloc: Global,
    engine: Engine<E, F, Sum>,
    pages: &mut HexWriter<W>,
) -> Result<(), Fault>
    ensures images { (A : List STEP) → EngineStands engine A → OnOk result
        (Appends (W.contents pages.old.writer) (W.contents pages.new.writer)
        (image_lines engine.core.sizes A)) }
    ensures faults { IfErr result (λ fault. (fault ≡ OutOfMemory) ⊎ (fault ≡ Device)) }
{
    let mut engine = engine;
    let params = engine.params();
    let size = 8 + 8 * params.page_size();
    let mut image = zeros(alloc, size as usize)?;
    // No more pages wait than there are frames.
    for _turn in 0..params.frames() {
        match flush_one(&mut engine, pages, &mut image) {
            Ok(_) => {}
            Err(Fault::NoneSealed) => return Ok(()),
            Err(_) => return Err(Fault::Device),
        }
    }
    Ok(())
}

/// Returns so many bytes, all 0.
fn zeros(alloc: Global, size: usize) -> Result<Vec<u8>, Fault>
    ensures made { IfOk result (λ made. length made.items ≡ size) }
    ensures refused { IfErr result (λ fault. fault ≡ OutOfMemory) }
{
    vec![in alloc; 0; size].map_err(|_| Fault::OutOfMemory)
}
