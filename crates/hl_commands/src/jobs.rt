ghost use Rattle.std.specs.Prelude.{◌≡◌, ℕ, ◌+◌, ◌<◌, ◌^◌, IfOk, IfErr};
ghost use Rattle.hl_model.specs.declared.fault.Fault.TheVariants.{OutOfMemory};
ghost use Rattle.hl_script.specs.Text.{tags_on};
ghost use Rattle.hl_commands.specs.Commands.{AreTheTags};
ghost use Rattle.hl_commands.specs.Jobs.{MakesSums};

use hl_action::{Kept, Shelf, Task};
use hl_model::Fault;
use hl_script::Sum;
use std::alloc::Global;

/// The jobs of a script have the tags 0 to 999.
pub(crate) const TAGS: u64 = 1000;

/// The closure that makes the job of a tag, which is a closure too, and answers its tag + its ticket.
macro_rules! adds_ticket {
    () => {
        |tag: u64| hl_action::Call(move |firing: hl_action::Firing| tag + firing.ticket())
    };
}

pub(crate) use adds_ticket;

/// Returns a shelf with a job for each tag, as `make` makes it. The caller is generic over the job, too: where a
/// closure is written, the type of a shelf of such can't be named.
///
/// Fault: `OutOfMemory` if memory is refused.
pub(crate) fn all_jobs<F: Task, M: Fn(u64) -> F>(
    alloc: Global,
    make: M,
) -> Result<Shelf<F, Sum>, Fault>
    requires callable { (tag : ℕ) → tag < 1000 → M.pre make tag }
    requires made { MakesSums F.can F.gives (λ tag job. M.post make tag job) }
    ensures tags { IfOk result (λ shelf. AreTheTags (tags_on shelf)) }
    ensures memory { IfErr result (λ fault. fault ≡ OutOfMemory) }
{
    let mut shelf = Shelf::open(alloc, TAGS)?;
    for tag in 0..TAGS {
        shelf.put(Kept::new(tag, make(tag)));
    }
    Ok(shelf)
}
