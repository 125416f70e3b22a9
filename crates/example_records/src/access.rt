//! A record appended, or read, in a session.
ghost use Rattle.std.specs.Prelude.{◌≡◌, true, IfOk, IfNone, IfSome};
ghost use Rattle.hl.specs.Traces.{acts};
ghost use Rattle.hl.specs.Uses.{AreNumbers};
ghost use Rattle.example_records.specs.Records.{is_framed, AddsTold, IsRead, KeepsTold, LoadedOn};

use crate::record::LONGEST;
use hl::{Cure, Fault, Helping, Realm, Session, laws};
use std::alloc::Global;
use std::sync::Wait;

/// How often a record is tried to be appended: its frame may have to be freed first.
const TRIES: u32 = 1_000_000;

/// Appends a record of these words, with help for the log between two tries. Returns its address, or `None` if it was refused
/// for good.
pub(crate) fn append<R: Wait, L: Realm>(session: &mut Session<R, L>, words: &[u64]) -> Option<u64>
    requires framed { is_framed words.now ≡ true }
    requires numbers { AreNumbers words.now }
    ensures told { IfSome result (AddsTold words.now (acts session.old) (acts session.new)) }
    ensures kept { IfNone result (KeepsTold (acts session.old) (acts session.new)) }
{
    laws::appends_more();
    for _ in 0..TRIES {
        if let Ok(address) = session.append(words) {
            return Some(address);
        }
        // A round of help, and a short nap, so that the crew can free a frame.
        let _ = session.help_by(Cure::Others);
    }
    None
}

/// Brings the session up to date, so that it sees what others appended. If that is refused, it goes on as it is.
#[tactic(auto, using(crate::proofs::TellLaws::kept_loads))]
pub(crate) fn keep_up<R: Wait, L: Realm>(session: &mut Session<R, L>)
    ensures { LoadedOn (acts session.old) (acts session.new) }
{
    let _ = session.keep_up();
}

/// Reads the record at an address: its words.
///
/// Faults: `Evicted` if it has left memory; `Beyond` if the session doesn't see it, or not whole, yet; `OutOfMemory`.
pub(crate) fn read<R: Wait, L: Realm>(
    session: &mut Session<R, L>,
    alloc: Global,
    address: u64,
) -> Result<Vec<u64>, Fault>
    ensures read { IfOk result (λ words. IsRead (acts session.new) address words.items) }
    ensures loaded { LoadedOn (acts session.old) (acts session.new) }
{
    let count = session.load(address)?;
    if count == 0 || count > LONGEST {
        return Err(Fault::Beyond { tail: address });
    }
    let Some(end) = address.checked_add(count - 1) else {
        return Err(Fault::Beyond { tail: address });
    };
    let last = session.load(end)?;
    if last == 0 {
        return Err(Fault::Beyond { tail: end });
    }
    let Ok(mut words) = vec![in alloc; 0; count as usize] else {
        return Err(Fault::OutOfMemory);
    };
    session.load_into(address, &mut words)?;
    Ok(words)
}
