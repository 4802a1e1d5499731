// The read-out and its lists of calls, which the Rust lacks.
use crate::calls::{CALLS_LEN, CallList, FEW, NO_ANSWER, NO_CALL};
use crate::luminaire_write;
use crate::output::{Output, Put};
use crate::request::{NUMBERS_LEN, REQUEST_LEN, Request, Take};
use bank::call_list::{Answer, Call};
use bank::read_out::chunk_count;
use bank::{ReadOut, Wanted, call_list};

// By a match, as in main.rt.
pub(crate) fn answer(number: u8, request: &mut Request, out: &mut Output) {
    match number {
        0x40 => out.put(ReadOut::starting(request.take(), request.take(), request.take())),
        0x41 => out.put(ReadOut::take(request).done()),
        0x42 => out.put(ReadOut::take(request).wanting(request.take())),
        0x43 => accepting(request, out),
        0x44 => run(request, out),
        0x45 => out.put(chunk_count(
            request.take(),
            request.take(),
            request.take(),
            request.take(),
        )),
        0x46..=0x48 => luminaire_write::answer(number, request, out),
        _ => {}
    }
}

fn accepting(request: &mut Request, out: &mut Output) {
    let read_out = ReadOut::take(request);
    let budget = request.take();
    let chunk = request.take();
    let mut space = [0; REQUEST_LEN];
    let buffer = request.lend(&mut space);
    out.put(read_out.accepting(budget, chunk, buffer));
    out.put(&*buffer);
}

fn run(request: &mut Request, out: &mut Output) {
    let start = request.take();
    let numbers = request.numbers();
    let chunks = request.take();
    let mut space = [0; REQUEST_LEN];
    let buffer = request.lend(&mut space);
    let list = CallList {
        numbers,
        chunks,
        answers: request.numbers(),
    };
    if list.is_short() {
        run_in(
            start,
            list,
            &mut [NO_CALL; FEW],
            &mut [NO_ANSWER; FEW],
            buffer,
            out,
        );
    } else {
        run_long(start, list, buffer, out);
    }
}

// With room for the longest list. Out of line, so that no other request needs as much of the stack.
#[inline(never)]
fn run_long(start: ReadOut, list: CallList, buffer: &mut [u8], out: &mut Output) {
    let mut calls = [NO_CALL; CALLS_LEN];
    let mut answers = [NO_ANSWER; NUMBERS_LEN];
    run_in(start, list, &mut calls, &mut answers, buffer, out);
}

// Runs a list in room for its calls and answers, and puts the buffer and the answers as the calls left them.
fn run_in<'a>(
    start: ReadOut,
    list: CallList<'a>,
    calls: &mut [Call<'a>],
    answers: &mut [Answer],
    buffer: &mut [u8],
    out: &mut Output,
) {
    let calls = list.lay(calls);
    let answers = list.lend(answers);
    out.put(call_list::run(start, calls, buffer, answers));
    out.put(&*buffer);
    out.put(&*answers);
}

impl Take<'_> for ReadOut {
    fn take(request: &mut Request) -> Self {
        ReadOut {
            bank: request.take(),
            length: request.take(),
            next: request.take(),
            mode: request.take(),
        }
    }
}

impl Put for ReadOut {
    fn put(self, out: &mut Output) {
        out.put(self.bank);
        out.put(self.length);
        out.put(self.next);
        out.put(self.mode);
    }
}

impl Put for Wanted {
    fn put(self, out: &mut Output) {
        match self {
            Wanted::Chunk(len) => out.put(Some(len)),
            Wanted::Done => out.put(None::<u16>),
        }
    }
}
