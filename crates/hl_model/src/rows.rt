ghost use Rattle.std.specs.Prelude.{◌≡◌, IfOk, IfErr, [], replicate, vec_len, vec_capacity};

use crate::fault::Fault;
use std::alloc::Global;

/// Returns an empty row with room for n elements, exactly.
///
/// Fault: `OutOfMemory` if memory is refused.
pub fn with_room<T>(alloc: Global, n: u64) -> Result<Vec<T>, Fault>
    ensures empty { IfOk result (λ row. row.items ≡ []) }
    ensures room { IfOk result (λ row. vec_capacity row ≡ n) }
    ensures err { IfErr result (λ fault. fault ≡ Fault.OutOfMemory) }
{
    Vec::with_capacity(alloc, n as usize).map_err(|_| Fault::OutOfMemory)
}

/// Returns a row of n copies of x, with no room beside them.
///
/// Fault: `OutOfMemory` if memory is refused.
pub fn filled<T: Copy>(alloc: Global, n: u64, x: T) -> Result<Vec<T>, Fault>
    ensures items { IfOk result (λ row. row.items ≡ replicate n x) }
    ensures len { IfOk result (λ row. vec_len row ≡ n) }
    ensures exact { IfOk result (λ row. vec_capacity row ≡ n) }
    ensures err { IfErr result (λ fault. fault ≡ Fault.OutOfMemory) }
{
    let mut row = with_room(alloc, n)?;
    for _ in 0..n {
        row.push_reserved(x);
    }
    Ok(row)
}
