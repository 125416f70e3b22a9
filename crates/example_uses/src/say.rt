use hl_model::Fault;
use std::io::Write;

/// Writes a line: what was answered, and the number.
///
/// `Stream` if the writer fails.
pub(crate) fn say<W: Write>(out: &mut W, what: &str, number: u64) -> Result<(), Fault> {
    writeln!(out, "{what} {number}").map_err(|_| Fault::Stream)
}
