// A bank read out chunk by chunk: which chunk is next, and where its bytes go.
ghost use Rattle.std.specs.Prelude.{◌≡◌, ◌+◌, ◌≤◌, length};
ghost use Rattle.bank.specs.Refusal.{tested};
ghost use Rattle.bank.specs.ReadOut.{rule_of, is_done, want_checks, starting, wanting, accepting, laid, buffer_after};
ghost use Rattle.bank.specs.Count.{counted_chunks};

use crate::layout::ChunkMode;
use crate::refusal::Refusal;

#[derive(Clone, Copy)]
pub struct ReadOut {
    pub bank: u8,
    // Beside the bank, so that no room is lost between the members: copies of eight bytes make a read-out slower.
    pub mode: ChunkMode,
    pub length: u16,
    pub next: u16,
}

// What a read-out wants next.
#[derive(Clone, Copy)]
pub enum Wanted {
    Chunk(u16),
    Done,
}

impl ReadOut {
    // From the first byte on.
    pub fn starting(bank: u8, length: u16, mode: ChunkMode) -> Result<ReadOut, Refusal>
        ensures { result ≡ starting bank length mode }
    {
        if 256 < length {
            return Err(Refusal::ReadOutInvalid);
        }
        Ok(ReadOut {
            bank,
            length,
            next: 0,
            mode,
        })
    }

    pub fn done(self) -> bool
        ensures { result ≡ is_done self }
    {
        self.next == self.length
    }

    // What wanting and accepting test alike.
    fn check(self, budget: u16) -> Result<(), Refusal>
        ensures { result ≡ tested (want_checks self budget) }
    {
        if 256 < self.length || self.length < self.next {
            return Err(Refusal::ReadOutInvalid);
        }
        if budget == 0 {
            return Err(Refusal::BudgetZero);
        }
        Ok(())
    }

    // How many bytes it wants next, at most a budget of them where no field is wider.
    pub fn wanting(self, budget: u16) -> Result<Wanted, Refusal>
        ensures { result ≡ wanting (rule_of self) self budget }
    {
        self.check(budget)?;
        if self.done() {
            return Ok(Wanted::Done);
        }
        let left = self.length - self.next;
        let len = self.mode.chunk_len(self.bank, self.next, left, budget);
        Ok(Wanted::Chunk(len))
    }

    // Stores a chunk of the wanted length at the next offset of the buffer, and advances behind it.
    pub fn accepting(self, budget: u16, chunk: &[u8], buffer: &mut [u8]) -> Result<ReadOut, Refusal>
        ensures answer { result ≡ accepting (rule_of self) self budget chunk.now buffer.old }
        ensures stored { buffer.new ≡ buffer_after (rule_of self) self budget chunk.now buffer.old }
    {
        self.check(budget)?;
        if buffer.len() < self.length as usize {
            return Err(Refusal::SliceTooShort);
        }
        let left = self.length - self.next;
        let wanted = self.mode.chunk_len(self.bank, self.next, left, budget);
        if chunk.len() != wanted as usize {
            return Err(Refusal::WrongChunkLength);
        }
        let end = self.next + wanted;
        copy_in(chunk, buffer, self.next as usize);
        Ok(ReadOut { next: end, ..self })
    }
}

// Stores all of a chunk in a buffer from an index on. By a loop: most chunks have a few bytes, for which `copy_from_slice` makes
// a read-out byte by byte take a third longer.
fn copy_in(chunk: &[u8], buffer: &mut [u8], at: usize)
    requires { at + length chunk.now ≤ length buffer.old }
    ensures { buffer.new ≡ laid buffer.old at chunk.now }
{
    for (i, byte) in chunk.iter().enumerate() {
        buffer[at + i] = *byte;
    }
}

// How many chunks a read-out has from its start on, all at one budget; no byte of the bank is asked for.
pub fn chunk_count(bank: u8, length: u16, mode: ChunkMode, budget: u16) -> Result<u16, Refusal>
    ensures { result ≡ counted_chunks bank length mode budget }
{
    let start = ReadOut::starting(bank, length, mode)?;
    start.check(budget)?;
    let mut next = 0;
    let mut count = 0;
    while next < length {
        next += mode.chunk_len(bank, next, length - next, budget);
        count += 1;
    }
    Ok(count)
}
