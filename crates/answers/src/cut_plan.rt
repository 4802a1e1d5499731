// The plan that is cut and read back, which the Rust lacks.
use crate::calls::{CALLS_LEN, CallList, FEW, NO_ANSWER, NO_CALL};
use crate::output::Output;
use crate::request::{NUMBERS_LEN, REQUEST_LEN, Request};
use bank::ChunkMode;
use bank::call_list::{Answer, Call};
use records::{LuminaireNumbers, cut_plan};

// By a match, as in main.rt.
pub(crate) fn answer(number: u8, request: &mut Request, out: &mut Output) {
    match number {
        0x80 => read_back(request, out),
        _ => {}
    }
}

// What is asked of a cut plan, but for what is lent.
#[derive(Clone, Copy)]
struct Asked<'a> {
    mode: ChunkMode,
    numbers: LuminaireNumbers,
    text_field: Option<usize>,
    text: &'a [u8],
    cut: usize,
}

fn read_back(request: &mut Request, out: &mut Output) {
    let asked = Asked {
        mode: request.take(),
        numbers: request.take(),
        text_field: request.take(),
        text: request.take(),
        cut: request.take(),
    };
    let numbers = request.numbers();
    let chunks = request.take();
    let mut bank_space = [0; REQUEST_LEN];
    let bank = request.lend(&mut bank_space);
    let mut buffer_space = [0; REQUEST_LEN];
    let buffer = request.lend(&mut buffer_space);
    let list = CallList {
        numbers,
        chunks,
        answers: request.numbers(),
    };
    if list.is_short() {
        read_back_in(
            asked,
            list,
            &mut [NO_CALL; FEW],
            &mut [NO_ANSWER; FEW],
            bank,
            buffer,
            out,
        );
    } else {
        read_back_long(asked, list, bank, buffer, out);
    }
}

// With room for the longest list, out of line as in read_out.rt.
#[inline(never)]
fn read_back_long(
    asked: Asked,
    list: CallList,
    bank: &mut [u8],
    buffer: &mut [u8],
    out: &mut Output,
) {
    let mut calls = [NO_CALL; CALLS_LEN];
    let mut answers = [NO_ANSWER; NUMBERS_LEN];
    read_back_in(asked, list, &mut calls, &mut answers, bank, buffer, out);
}

// In room for the calls and answers of the list. Puts the bank, the buffer and the answers as the call left them.
fn read_back_in<'a>(
    asked: Asked,
    list: CallList<'a>,
    calls: &mut [Call<'a>],
    answers: &mut [Answer],
    bank: &mut [u8],
    buffer: &mut [u8],
    out: &mut Output,
) {
    let calls = list.lay(calls);
    let answers = list.lend(answers);
    out.put(cut_plan::read_back(
        asked.mode,
        asked.numbers,
        asked.text_field,
        asked.text,
        asked.cut,
        calls,
        bank,
        buffer,
        answers,
    ));
    out.put(&*bank);
    out.put(&*buffer);
    out.put(&*answers);
}
