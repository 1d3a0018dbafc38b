//! What a session reads and writes, whatever the devices do.
ghost use Rattle.std.specs.Prelude.{◌≡◌, ◌+◌, ◌*◌, ◌<◌, ◌≤◌, ℕ, IfOk, OnOk, OnErr, vec_len, take};
ghost use Rattle.std.specs.Io.KnownBytes.{Consumes, Appends, IsAtEnd};

use std::alloc::{AllocError, Global};
use std::io::{Read, Write};

/// Returns the most bytes that are read of a trace of at most so many lines: one more than any such
/// trace without a fault has, whose lines have 80 bytes and a newline at most.
pub fn most_bytes(lines: u32) -> usize
    ensures { result ≡ 81 * lines + 1 }
{
    81 * lines as usize + 1
}

/// The bytes that are asked for at a time.
const PIECE: usize = 8192;

/// Why a session ends early.
#[derive(Drop)]
pub enum ReadFault {
    /// The device answered an error.
    Device,
    /// A growth was refused.
    OutOfMemory,
}

impl From<AllocError> for ReadFault {
    ghost use Rattle.std.specs.Prelude.{◌≡◌};
    ghost use Rattle.ms_session.specs.declared.devices.ReadFault.TheVariants.{OutOfMemory};

    ghost from_gives = { λ _ fault. fault ≡ OutOfMemory };

    fn from(_: AllocError) -> ReadFault {
        ReadFault::OutOfMemory
    }
}

/// Reads to the end of the input, but at most so many bytes.
pub fn read_text<R: Read>(alloc: Global, input: &mut R, most: usize) -> Result<Vec<u8>, ReadFault>
    ensures bytes { IfOk result (λ text.
        Consumes (R.remaining input.old) (R.remaining input.new) text.items) }
    ensures most { IfOk result (λ text. vec_len text ≤ most) }
    ensures whole { IfOk result (λ text.
        vec_len text < most → IsAtEnd (R.remaining input.new)) }
{
    let mut text = Vec::new(alloc);
    let mut piece = [0; PIECE];
    while text.len() < most {
        let room = PIECE.min(most - text.len());
        let Ok(count) = input.read(&mut piece[..room]) else {
            return Err(ReadFault::Device);
        };
        if count == 0 {
            return Ok(text);
        }
        text.extend_from_slice(&piece[..count])?;
    }
    Ok(text)
}

/// Writes a text; what went out is a beginning of it where the device fails or takes nothing.
pub fn write_text<W: Write>(output: &mut W, text: &[u8]) -> Result<(), WriteFault>
    ensures ok { OnOk result (Appends (W.contents output.old) (W.contents output.new) text.now) }
    ensures err { OnErr result ((count : ℕ)
        × Appends (W.contents output.old) (W.contents output.new) (take count text.now)) }
{
    let mut written = 0;
    while written < text.len() {
        match output.write(&text[written..]) {
            Ok(count) if count > 0 => written += count,
            _ => return Err(WriteFault),
        }
    }
    Ok(())
}

/// The device answered an error, or took nothing.
#[derive(Drop)]
pub struct WriteFault;
