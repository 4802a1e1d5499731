// Reading and writing a whole slice, over any reader and any writer.
#![tactic(auto)]

ghost use Rattle.std.specs.Prelude.{◌≢◌, ℕ, ◌≤◌, ◌<◌, IfErr, IfOk, OnErr, OnOk, length, take};
ghost use Rattle.std.specs.IoError.{error_kind};
ghost use Rattle.std.specs.Io.KnownBytes.{Appends, Consumes, IsAtEnd};

use std::io;
use std::io::{ErrorKind, Read, Write};

// Reads until the slice is full or the input ends, and answers how many bytes were read; after an error just the first bytes
// of the slice, or none, were read. What stands behind those is the reader's: std's `read` says nothing of it. An interrupted
// read is made again. Std's `read_exact` takes no shorter input, and its `read_to_end` a `Vec`. The loop counts its turns up
// to a number that no input uses up, since a proved loop has to end.
pub fn read_full<R: Read>(input: &mut R, block: &mut [u8]) -> io::Result<usize>
    ensures within { IfOk result (λ n. n ≤ length block.new) }
    ensures bytes { IfOk result (λ n. Consumes (R.remaining input.old) (R.remaining input.new) (take n block.new)) }
    ensures end { IfOk result (λ n. n < length block.new → IsAtEnd (R.remaining input.new)) }
    ensures err { OnErr result ((k : ℕ) × Consumes (R.remaining input.old) (R.remaining input.new) (take k block.new)) }
    ensures retried { IfErr result (λ e. error_kind e ≢ ErrorKind.Interrupted) }
{
    let mut n = 0;
    for _ in 0..u64::MAX {
        if n >= block.len() {
            return Ok(n);
        }
        match input.read(&mut block[n..]) {
            Ok(0) => return Ok(n),
            Ok(count) => n += count,
            Err(error) if error.kind() == ErrorKind::Interrupted => {}
            Err(error) => return Err(error),
        }
    }
    Err(io::Error::from(ErrorKind::TimedOut))
}

// Writes the whole slice; after an error its first bytes, or none, are written, of which std's `write_all` says nothing. An
// interrupted write is made again.
pub fn write_full<W: Write>(output: &mut W, text: &[u8]) -> io::Result<()>
    ensures ok { OnOk result (Appends (W.contents output.old) (W.contents output.new) text.now) }
    ensures err { OnErr result ((k : ℕ) × Appends (W.contents output.old) (W.contents output.new) (take k text.now)) }
    ensures retried { IfErr result (λ e. error_kind e ≢ ErrorKind.Interrupted) }
{
    let mut n = 0;
    for _ in 0..u64::MAX {
        if n >= text.len() {
            return Ok(());
        }
        match output.write(&text[n..]) {
            Ok(0) => return Err(io::Error::from(ErrorKind::WriteZero)),
            Ok(count) => n += count,
            Err(error) if error.kind() == ErrorKind::Interrupted => {}
            Err(error) => return Err(error),
        }
    }
    Err(io::Error::from(ErrorKind::TimedOut))
}
