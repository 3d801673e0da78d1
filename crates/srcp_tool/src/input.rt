//! Input, read to the end: the standard input, a configuration.

ghost use Rattle.std.specs.Prelude.{◌≡◌, ◌<◌, ◌≤◌, length, take, IfOk, IfErr, IfSome, IsErrOf};
ghost use Rattle.std.specs.Io.KnownBytes.{Consumes, IsAtEnd};
ghost use Rattle.srcp_tool.specs.Output.{config_limit, input_limit, IsConfigFault, IsInputFault};

use crate::fault::ToolFault;
use std::alloc::Global;
use std::io::Read;
use std::vec::Vec;

/// The most bytes of the standard input.
pub(crate) const INPUT_LIMIT: usize = 16_777_216;

/// The most bytes of a configuration.
const CONFIG_LIMIT: usize = 1_048_576;

/// The most bytes of a read.
pub(crate) const PIECE: usize = 65_536;

/// Reads the standard input to the end.
///
/// # Errors
/// Returns `Input` if a read fails, `TooLarge` if there are more bytes than the limit, and `Memory` if memory is
/// refused.
pub(crate) fn read_input<R: Read>(alloc: Global, reader: &mut R) -> Result<Vec<u8>, ToolFault>
    ensures whole { IfOk result (λ input. IfSome (R.remaining reader.old) (λ bytes. input.items ≡ bytes)) }
    ensures within { IfOk result (λ input. length input.items ≤ input_limit) }
    ensures large { IsErrOf result ToolFault.TooLarge
        → IfSome (R.remaining reader.old) (λ bytes. input_limit < length bytes) }
    ensures faults { IfErr result IsInputFault }
{
    read_within(INPUT_LIMIT, alloc, reader)
}

/// Reads a configuration to the end.
///
/// # Errors
/// Returns `Unreadable` if a read fails, `TooLarge` if there are more than 1,048,576 bytes, and `Memory` if memory is
/// refused.
pub fn read_config<R: Read>(alloc: Global, reader: &mut R) -> Result<Vec<u8>, ToolFault>
    ensures whole { IfOk result (λ config. IfSome (R.remaining reader.old) (λ bytes. config.items ≡ bytes)) }
    ensures within { IfOk result (λ config. length config.items ≤ config_limit) }
    ensures large { IsErrOf result ToolFault.TooLarge
        → IfSome (R.remaining reader.old) (λ bytes. config_limit < length bytes) }
    ensures faults { IfErr result IsConfigFault }
{
    match read_within(CONFIG_LIMIT, alloc, reader) {
        Err(ToolFault::Input) => Err(ToolFault::Unreadable),
        read => read,
    }
}

/// Reads to the end, if there are no more bytes than the limit.
fn read_within<R: Read>(limit: usize, alloc: Global, reader: &mut R) -> Result<Vec<u8>, ToolFault>
    requires { limit ≤ input_limit }
    ensures whole { IfOk result (λ input. IfSome (R.remaining reader.old) (λ bytes. input.items ≡ bytes)) }
    ensures within { IfOk result (λ input. length input.items ≤ limit) }
    ensures large { IsErrOf result ToolFault.TooLarge
        → IfSome (R.remaining reader.old) (λ bytes. limit < length bytes) }
    ensures faults { IfErr result IsInputFault }
{
    let mut input = Vec::new(alloc);
    let mut piece = [0; PIECE];
    for _ in 0..limit + 1 {
        let count = read_piece(reader, &mut piece)?;
        if count == 0 {
            return Ok(input);
        }
        if input.len() + count > limit {
            return Err(ToolFault::TooLarge);
        }
        input
            .extend_from_slice(&piece[..count])
            .map_err(|_| ToolFault::Memory)?;
    }
    Err(ToolFault::TooLarge)
}

/// Reads the next bytes of a reader. Returns how many bytes were read: 0 at the end.
///
/// # Errors
/// Returns `Input` if the read fails.
pub(crate) fn read_piece<R: Read>(reader: &mut R, piece: &mut [u8]) -> Result<usize, ToolFault>
    ensures within { IfOk result (λ count. count ≤ length piece.new) }
    ensures bytes { IfOk result
        (λ count. Consumes (R.remaining reader.old) (R.remaining reader.new) (take count piece.new)) }
    ensures end { IfOk result (λ count. count ≡ 0 → 0 < length piece.old → IsAtEnd (R.remaining reader.new)) }
    ensures input { IfErr result (λ fault. fault ≡ ToolFault.Input) }
{
    match reader.read(piece) {
        Ok(count) => Ok(count),
        Err(_) => Err(ToolFault::Input),
    }
}
