// A list of calls of a read-out, one after the other.
ghost use Rattle.std.specs.Prelude.{◌≡◌, ◌≤◌, length, take, drop, set};
ghost use Rattle.bus.specs.Value.{laid_into};
ghost use Rattle.bank.specs.ReadOut.{rule_of};
ghost use Rattle.bank.specs.Calls.{state_of, step, after, answer, answers_of, call_of, calls_in, call_with, behind_call, calls_told, refused_number, answer_number};

use crate::read_out::{ReadOut, Wanted};
use crate::refusal::Refusal;

// What may be asked of a read-out.
#[derive(Clone, Copy)]
pub enum Call<'a> {
    Wanting { budget: u16 },
    Accepting { budget: u16, chunk: &'a [u8] },
}

// What it answers.
#[derive(Clone, Copy)]
pub enum Answer {
    Wanting(Result<Wanted, Refusal>),
    Accepting(Result<ReadOut, Refusal>),
}

// What is added to a refusal's number where an answer is told in a number: no chunk and no offset is as large.
const REFUSED: u16 = 512;

impl Answer {
    // An answer in one number: 0 for done, a chunk's length, a read-out's next offset, or what a refusal has.
    pub fn number(self) -> u16
        ensures { result ≡ answer_number self }
    {
        match self {
            Answer::Wanting(Ok(Wanted::Chunk(len))) => len,
            Answer::Wanting(Ok(Wanted::Done)) => 0,
            Answer::Accepting(Ok(read_out)) => read_out.next,
            Answer::Wanting(Err(refusal)) => refused_number(refusal),
            Answer::Accepting(Err(refusal)) => refused_number(refusal),
        }
    }
}

fn refused_number(refusal: Refusal) -> u16
    ensures { result ≡ refused_number refusal }
{
    REFUSED + refusal.number() as u16
}

// In the place of a chunk's length, where calls are told in numbers: the call is wanting.
pub const WANTING: u16 = 0xFFFF;

// The call that two numbers tell, and the bytes behind its chunk, which has what is there.
fn call_told<'a>(budget: u16, len: u16, bytes: &'a [u8]) -> (Call<'a>, &'a [u8])
    ensures call { call_of result.0 ≡ call_with budget len (take len bytes.now) }
    ensures behind { result.1.now ≡ behind_call len bytes.now }
{
    if len == WANTING {
        return (Call::Wanting { budget }, bytes);
    }
    let (chunk, behind) = bytes.split_at(usize::min(len as usize, bytes.len()));
    (Call::Accepting { budget, chunk }, behind)
}

// Lays the calls that numbers tell, as many as there is room for, and answers how many: two numbers for each, its budget and
// the length of its chunk, and the chunks one behind the other. An odd last number is no call.
pub fn lay_calls<'a>(numbers: &[u16], chunks: &'a [u8], calls: &mut [Call<'a>]) -> usize
    ensures few { result ≤ length calls.old }
    ensures laid { calls_in (take result calls.new) ≡ take (length calls.old) (calls_told numbers.now chunks.now) }
    ensures behind { drop result calls.new ≡ drop result calls.old }
{
    let mut left = numbers;
    let mut bytes = chunks;
    let mut count = 0;
    while let Some((budget, behind)) = left.split_first() {
        let Some((len, rest)) = behind.split_first() else {
            break;
        };
        if calls.len() <= count {
            break;
        }
        let (call, further) = call_told(*budget, *len, bytes);
        calls[count] = call;
        count += 1;
        left = rest;
        bytes = further;
    }
    count
}

// Stores an answer at an index, where the slice has one, as `output::put` does, which stands in a crate above.
fn put_answer(answers: &mut [Answer], i: usize, answer: Answer)
    ensures { answers.new ≡ set answers.old i answer }
{
    if i < answers.len() {
        answers[i] = answer;
    }
}

// Makes a call, stores its answer and hands on the read-out. Each case by itself, and bank, length and mode as they were, so
// that a loop over calls need not take them out of each answer: that took half as many instructions again.
fn make_call(
    out: ReadOut,
    call: Call,
    buffer: &mut [u8],
    answers: &mut [Answer],
    i: usize,
) -> ReadOut
    ensures next { result ≡ (step (rule_of out) (state_of out buffer.old) (call_of call.entry)).out }
    ensures stored { buffer.new ≡ (step (rule_of out) (state_of out buffer.old) (call_of call.entry)).buffer }
    ensures answered { answers.new ≡ set answers.old i (answer (rule_of out) (state_of out buffer.old) (call_of call.entry)) }
{
    match call {
        Call::Wanting { budget } => {
            put_answer(answers, i, Answer::Wanting(out.wanting(budget)));
            out
        }
        Call::Accepting { budget, chunk } => {
            let handed = out.accepting(budget, chunk, buffer);
            put_answer(answers, i, Answer::Accepting(handed));
            match handed {
                Ok(handed) => ReadOut {
                    next: handed.next,
                    ..out
                },
                Err(_) => out,
            }
        }
    }
}

// Makes the calls, each with the read-out last handed back. The answers are stored as far as their slice goes.
pub fn run(out: ReadOut, calls: &[Call], buffer: &mut [u8], answers: &mut [Answer]) -> ReadOut
    ensures last { result ≡ (after (rule_of out) (state_of out buffer.old) (calls_in calls.now)).out }
    ensures stored { buffer.new ≡ (after (rule_of out) (state_of out buffer.old) (calls_in calls.now)).buffer }
    ensures answered { answers.new ≡ laid_into (answers_of (rule_of out) (state_of out buffer.old) (calls_in calls.now)) answers.old }
{
    let mut now = out;
    for (i, call) in calls.iter().enumerate() {
        now = make_call(now, *call, buffer, answers, i);
    }
    now
}
