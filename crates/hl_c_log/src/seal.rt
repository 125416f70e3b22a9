ghost use Rattle.std.specs.Prelude.{◌≡◌, Result};
ghost use Rattle.hl_c_log.specs.Seals.{sealed_outcome, SealsBy};

use crate::log_handle::LogHandle;
use crate::pass_handle::PassHandle;
use hl_answers::Outcome;
use hl_log::Sealed;
use hl_model::Fault;

/// All up to the tail is to be sealed: the tail, where a page begins then, and 1 with the settle's ticket if one was
/// stored.
#[unsafe(no_mangle)]
pub extern "C" fn hl_log_seal(log: &mut LogHandle, pass: &mut PassHandle) -> Outcome
    ensures { SealsBy log.old.slot.value pass.old.slot.value log.new.slot.value pass.new.slot.value result }
{
    let Some(mut held) = log.take() else {
        return Outcome::no_core();
    };
    let Some(mut own) = pass.take() else {
        log.put(held);
        return Outcome::no_core();
    };
    let sealed = held.seal(&mut own);
    pass.put(own);
    log.put(held);
    told(sealed)
}

/// What is told of a seal, or of the fault in its place.
fn told(sealed: Result<Sealed, Fault>) -> Outcome
    ensures { result ≡ sealed_outcome sealed }
{
    match sealed {
        Ok(Sealed { address, ticket }) => match ticket {
            Some(ticket) => Outcome::accepted(address, 1, ticket, 0),
            None => Outcome::accepted(address, 0, 0, 0),
        },
        Err(fault) => Outcome::of_fault(fault),
    }
}
