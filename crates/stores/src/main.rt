// Reads a file that says what is to be written to bank 1 and prints the stores in their order, or the number of the
// refusal.
#![tactic(auto)]

ghost use Rattle.std.specs.Prelude.{◌≢◌, ℕ, IfErr, IfSome, OnErr, OnOk, take};
ghost use Rattle.std.specs.IoError.{error_kind};
ghost use Rattle.std.specs.declared.io.ErrorKind.TheVariants.{Interrupted};
ghost use Rattle.std.specs.Io.KnownBytes.{Appends};
ghost use Rattle.stores.specs.Listing.{printed};

mod file;
mod listing;

use std::io;
use std::io::{Read, Write};
use streams::{read_full, write_full};

// So much is read of a file; no good one is as long.
const FILE_LEN: usize = 4096;

// Reads a file, and writes what is printed for it. After an error, which only reading or writing gives, the first bytes of
// that, or none, are written. An interrupted call is made again.
fn print<R: Read, W: Write>(input: &mut R, output: &mut W) -> io::Result<()>
    ensures ok { OnOk result (IfSome (R.remaining input.old)
        (λ file. Appends (W.contents output.old) (W.contents output.new) (printed (take 4096 file)))) }
    ensures err { OnErr result (IfSome (R.remaining input.old)
        (λ file. (k : ℕ) × Appends (W.contents output.old) (W.contents output.new) (take k (printed (take 4096 file))))) }
    ensures retried { IfErr result (λ e. error_kind e ≢ Interrupted) }
{
    let mut file = [0; FILE_LEN];
    let len = read_full(input, &mut file)?;
    let text = listing::answer(&file[..len]);
    write_full(output, text.as_slice())
}

fn main(rt: HostRuntime) -> io::Result<()> {
    print(&mut rt.reader(), &mut io::writer(&rt))
}
