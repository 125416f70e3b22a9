//! A log with threads whose device is memory.
ghost use Rattle.std.specs.Prelude.{◌≡◌, ◌⊎◌, ℕ, List, true, false, Some, None, is_some, is_none, Err, IsOk, IfOk, IfErr, IfSome};
ghost use Rattle.std.specs.Option.{option_copied};
ghost use Rattle.hl_model.specs.declared.fault.Fault.TheVariants.{OutOfMemory, Size};
ghost use Rattle.hl_image.specs.Pages.{image_at, opened};
ghost use Rattle.hl.specs.Closings.{AreWritten, IsClosed, TellsCrew};
ghost use Rattle.hl.specs.Crews.{can_run};
ghost use Rattle.hl.specs.Devices.{on_memory, Differs};
ghost use Rattle.hl.specs.Openings.{of_sizes, opened_as};
ghost use Rattle.hl.specs.Threads.{HaveOneTrace};

use crate::open::Closed;
use crate::opening::Opening;
use crate::shared::{Outs, Returned, Shared};
use crate::work::Work;
use hl_crew::{CrewReport, Duty};
use hl_image::MemoryWriter;
use hl_model::{Fault, HasSizes};
use std::alloc::Global;
use std::sync::Wait;
use std::thread::Threads;

/// A device in memory: a row of pages for each of a crew's two writers.
#[derive(Drop)]
pub struct MemoryDevice {
    first: MemoryWriter,
    second: MemoryWriter,
}

impl MemoryDevice {
    /// A device of the pages 0 to `pages` - 1, each of `bytes` bytes: 8 and 8 for each word of a page. None is written.
    ///
    /// Fault: `OutOfMemory` if memory is refused.
    pub fn open(alloc: Global, pages: u64, bytes: u64) -> Result<MemoryDevice, Fault>
        ensures ok { IfOk result (λ device. (device.first ≡ opened pages bytes)
            × (device.second ≡ opened pages bytes)) }
        ensures memory { IfErr result (λ fault. fault ≡ OutOfMemory) }
    {
        Ok(MemoryDevice {
            first: MemoryWriter::open(alloc, pages, bytes)?,
            second: MemoryWriter::open(alloc, pages, bytes)?,
        })
    }

    /// The images of a page, by the writer that wrote it: each `None` until that writer has written the page, and beyond the
    /// last page. A page that the crew flushed has one.
    pub fn images(&self, page: u64) -> (Option<&[u8]>, Option<&[u8]>)
        ensures first { option_copied result.0 ≡ image_at page self.now.first }
        ensures second { option_copied result.1 ≡ image_at page self.now.second }
    {
        (self.first.image(page), self.second.image(page))
    }

    /// The image of a page: `None` if no writer has written it, or if both have and their images differ.
    pub fn image(&self, page: u64) -> Option<&[u8]>
        ensures same { IfSome result (λ image. (bytes : List ℕ) → on_memory self.now page bytes
            → image.now ≡ bytes) }
        ensures none { is_none result ≡ true → ((image_at page self.now.first ≡ None)
            × (image_at page self.now.second ≡ None)) ⊎ Differs self.now page }
    {
        match self.images(page) {
            (Some(first), Some(second)) => { if first == second { Some(first) } else { None } }
            (Some(first), None) => Some(first),
            (None, second) => second,
        }
    }

    /// Its two writers, if there is a device.
    pub(crate) fn into_parts(
        device: Option<MemoryDevice>,
    ) -> (Option<MemoryWriter>, Option<MemoryWriter>)
        ensures first { is_some result.0 ≡ is_some device }
        ensures second { is_some result.1 ≡ is_some device }
        ensures same { IfSome device (λ was. result ≡ (Some was.first, Some was.second)) }
    {
        match device {
            Some(MemoryDevice { first, second }) => (Some(first), Some(second)),
            None => (None, None),
        }
    }

    /// The device of two writers, if there are both.
    pub(crate) fn of_parts(
        first: Option<MemoryWriter>,
        second: Option<MemoryWriter>,
    ) -> Option<MemoryDevice>
        requires { is_some first ≡ is_some second }
        ensures kind { is_some result ≡ is_some first }
        ensures first { IfSome result (λ device. first ≡ Some device.first) }
        ensures second { IfSome result (λ device. second ≡ Some device.second) }
    {
        match (first, second) {
            (Some(first), Some(second)) => Some(MemoryDevice { first, second }),
            _ => None,
        }
    }
}

/// What threads left, and the device of their log.
#[derive(Drop)]
pub struct Written<T> {
    /// What each thread returned, by the threads' numbers.
    pub outs: Outs<T>,
    /// What the crew did, as in [`Returned`](crate::Returned).
    pub crew: Result<CrewReport, Fault>,
    pub device: MemoryDevice,
}

/// The same as [`with_threads`](crate::with_threads), with a device in memory, which comes back with what it has. The
/// pages go to it, and the work's own `write_page` isn't called. Each page below the flushed offset is there, with the words
/// that the threads' one trace leaves.
///
/// A page beyond the device's last can't be written, and is tried again and again: the log then runs out of frames.
///
/// Faults: those of `with_threads`.
pub fn with_memory<R: Threads + Wait + Sync, P: Work<R> + Sync, S: HasSizes>(
    rt: &R,
    alloc: Global,
    opening: Opening<S>,
    duty: Duty,
    work: &P,
    device: MemoryDevice,
) -> Result<Closed<Written<P::Out>, P::Job>, Fault>
    ensures size { can_run (of_sizes S.sizes_of opening) duty ≡ false → result ≡ Err Size }
    ensures memory { can_run (of_sizes S.sizes_of opening) duty ≡ true
        → IfErr result (λ fault. fault ≡ OutOfMemory) }
    ensures closed { let o = of_sizes S.sizes_of opening
        in IfOk result (IsClosed o
        (AreWritten P.Job (opened_as o) (is_some duty.cut_above) (P.returns work.now))) }
    ensures stands { IfOk result (λ closed. IsOk closed.ending) }
    ensures crew { IfOk result (λ closed. TellsCrew duty closed.out.crew) }
    ensures one { IfOk result (λ closed. HaveOneTrace P.Job (S.sizes_of opening.params)
        (P.returns work.now) (on_memory closed.out.device) closed.out.outs closed.ending) }
{
    let shared = Shared {
        rt,
        alloc,
        duty,
        work,
    };
    let closed = shared.run(opening.of_sizes(), Some(device))?;
    let Closed { out, ending } = closed;
    let device = out.1.unwrap();
    let Returned { outs, crew } = out.0;
    Ok(Closed {
        out: Written { outs, crew, device },
        ending,
    })
}
