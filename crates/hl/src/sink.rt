//! Where a crew's two writers write the pages of a log with threads.
ghost use Rattle.std.specs.Prelude.{◌≡◌, ◌≤◌, ◌^◌, Some, is_some};

use crate::signals::Refusals;
use crate::work::Work;
use hl_image::{MemoryWriter, PageWriter, with_one_more};
use hl_model::Fault;
use std::marker::{Brand, PhantomData};
use std::sync::Wait;

/// Names a work, and whether its pages go to memory: what lies in a crew is known by its type alone.
pub(crate) trait Named<P> {
    ghost use Rattle.std.specs.Prelude.{Option, Bool};

    ghost work: { Option P };

    ghost in_memory: { Bool };
}

impl<P> Named<P> for Brand {
    ghost use Rattle.std.specs.Prelude.{None, false};

    ghost work = { None };

    ghost in_memory = { false };
}

/// A page writer: into memory if it has some, else to the device of a work.
#[derive(Drop)]
pub(crate) struct Sink<'a, R, P, T: Named<P>> {
    rt: &'a R,
    work: &'a P,
    memory: Option<MemoryWriter>,
    refusals: &'a Refusals,
    failures: u64,
    named: PhantomData<T>,
    ghost within: { failures ≤ 2 ^ 62 },
    ghost is: { T.work ≡ Some work.now },
    ghost kind: { is_some memory ≡ T.in_memory },
}

impl<'a, R: Wait, P: Work<R>, T: Named<P>> Sink<'a, R, P, T> {
    /// Each page goes to this memory, or to the device of the work if there is none. What is refused is noted here, too.
    pub(crate) fn new(
        rt: &'a R,
        work: &'a P,
        memory: Option<MemoryWriter>,
        refusals: &'a Refusals,
    ) -> Sink<'a, R, P, T>
        requires work { T.work ≡ Some work.now }
        requires kind { is_some memory ≡ T.in_memory }
        ensures { result.memory ≡ memory }
    {
        Sink {
            rt,
            work,
            memory,
            refusals,
            failures: 0,
            named: PhantomData,
        }
    }

    /// Its memory.
    pub(crate) fn into_memory(self) -> Option<MemoryWriter>
        ensures memory { result ≡ self.entry.memory }
        ensures kind { is_some result ≡ T.in_memory }
    {
        self.memory
    }
}

impl<'a, R: Wait, P: Work<R>, T: Named<P>> PageWriter for Sink<'a, R, P, T> {
    ghost use Rattle.std.specs.Prelude.{⊤, IfSome};
    ghost use Rattle.hl.specs.Devices.{has_page};

    ghost wrote = { λ _ _ _ _. ⊤ };

    ghost failed = { λ _ _ _ _. ⊤ };

    ghost failures = { λ sink. sink.failures };

    ghost has = { λ sink page bytes.
        has_page (λ page bytes. IfSome T.work (λ work. P.took work page bytes)) sink.memory page bytes };

    fn write_page(&mut self, page: u64, bytes: &[u8]) -> Result<(), Fault> {
        let written = match &mut self.memory {
            Some(memory) => memory.write_page(page, bytes).is_ok(),
            None => self.work.write_page(self.rt, page, bytes),
        };
        self.refusals.note(written);
        if written {
            return Ok(());
        }
        self.failures = with_one_more(self.failures);
        Err(Fault::Device)
    }

    fn failures(&self) -> u64 {
        self.failures
    }
}
