ghost use Rattle.std.specs.Prelude.{◌≡◌, ◌+◌, ◌*◌, ◌⊎◌, Err, List, OnOk, IfErr, length};
ghost use Rattle.hl_model.specs.declared.step.Step.{Step as STEP};
ghost use Rattle.hl_image.specs.Failures.{one_more};
ghost use Rattle.hl_cells.specs.Engines.{EngineStands};
ghost use Rattle.hl_cells.specs.Jobs.{JobsStay};
ghost use Rattle.hl_flush.specs.Flush.{Flushes};

use hl_action::{Promise, Task};
use hl_cells::Engine;
use hl_epoch::Epochs;
use hl_image::{PageWriter, image_of};
use hl_model::Fault;

/// Flushes one page, the least that is sealed and neither flushed nor in flight: takes it, makes its image in
/// `image`, which has 8 + 8P bytes, hands that to the writer, and ends the flush. Returns the page.
///
/// From an engine that stands at a list, whatever the list: the image is that of the words which the
/// definitions give for the page. The engine then stands at the list with the take and the done. Each job
/// stays under its ticket.
///
/// Faults: `NoneSealed` if no page waits; nothing was changed. `Device` if the write failed: the writer
/// counted it, and the page is in flight no longer, so that the next flush takes it again.
pub fn flush_one<E, F, P, W>(
    engine: &mut Engine<E, F, P>,
    writer: &mut W,
    image: &mut [u8],
) -> Result<u64, Fault>
where
    E: Epochs + Drop,
    F: Task,
    P: Promise,
    W: PageWriter,
    requires { length image.old ≡ 8 + 8 * engine.old.core.sizes.page_size }
    ensures flushes { (A : List STEP) → EngineStands engine.old A
        → Flushes A W.wrote W.failed engine.old engine.new writer.old writer.new result }
    ensures faults { IfErr result (λ fault. (fault ≡ Fault.NoneSealed) ⊎ (fault ≡ Fault.Device)) }
    ensures unchanged { result ≡ Err Fault.NoneSealed
        → (engine.new ≡ engine.old) × (writer.new ≡ writer.old) × (image.new ≡ image.old) }
    ensures one_counted { result ≡ Err Fault.Device
        → W.failures writer.new ≡ one_more (W.failures writer.old) }
    ensures none_counted { OnOk result (W.failures writer.new ≡ W.failures writer.old) }
    ensures jobs { JobsStay engine.old engine.new }
    ensures sizes { engine.new.core.sizes ≡ engine.old.core.sizes }
{
    let page = engine.flush_take()?;
    image_of(page, engine.page_words(page), image);
    let written = writer.write_page(page, image);
    // The page is in flight, so its flush ends.
    let _ = engine.flush_done(page, written.is_ok());
    written?;
    Ok(page)
}
