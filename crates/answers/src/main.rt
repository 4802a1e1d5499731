// Answers the requests of the comparison with the Rust (oracle/README.md): a line of hexadecimal
// digits for each request on standard input, a line for each answer on standard output.
#![tactic(auto)]

mod banks;
mod bus_unit;
mod calls;
mod cut_plan;
mod identity;
mod layout;
mod luminaire_write;
mod memory_bank_parser;
mod output;
mod part251;
mod plan;
mod read_out;
mod request;

use output::Output;
use request::{REQUEST_LEN, Request, Take};
use std::io;
use streams::read_full;

// The bytes of a block.
const BLOCK_LEN: usize = 65_536;

// Puts the answer to one request. The high digit of a function's number says where it is answered. Here and there it is a
// match that finds the function: a table of functions would need pointers, and be no plainer.
fn answer(request: &mut Request, out: &mut Output) {
    let number = u8::take(request);
    match number / 16 {
        0 => banks::answer(number, request, out),
        1 => layout::answer(number, request, out),
        2 => part251::answer(number, request, out),
        3 => luminaire_write::answer(number, request, out),
        4 => read_out::answer(number, request, out),
        5 => identity::answer(number, request, out),
        6 => bus_unit::answer(number, request, out),
        7 => memory_bank_parser::answer(number, request, out),
        8 => cut_plan::answer(number, request, out),
        _ => {}
    }
}

// Answers every line of a block; an empty one asks for nothing. By hand: on newlines alone `split`, which makes a slice of
// each empty line, takes three times as long. A line goes with its newline: left to the next turn, it costs a tenth more.
fn answer_block(rt: &impl Print, block: &[u8], out: &mut Output) -> io::Result<()> {
    let mut space = [0; REQUEST_LEN];
    let mut rest = block;
    while let Some(start) = rest.iter().position(|byte| *byte != b'\n') {
        let lines = &rest[start..];
        let newline = lines.iter().position(|byte| *byte == b'\n');
        let end = newline.unwrap_or(lines.len());
        rest = lines.get(end + 1..).unwrap_or_default();
        answer(&mut Request::decode(&lines[..end], &mut space), out);
        out.end_line();
        if out.is_half_full() {
            out.flush(rt)?;
        }
    }
    out.flush(rt)
}

// Reads a block whole and answers it; false at the end of the input.
fn answer_some(rt: &(impl Input + Print), block: &mut [u8], out: &mut Output) -> io::Result<bool> {
    let n = read_full(&mut rt.reader(), block)?;
    if n == 0 {
        return Ok(false);
    }
    answer_block(rt, &block[..n], out)?;
    Ok(true)
}

// The loop counts its turns up to a number that no input uses up, since a proved loop has to end.
fn main(rt: HostRuntime) -> io::Result<()> {
    let mut block = [0; BLOCK_LEN];
    let mut out = Output::new();
    for _ in 0..u64::MAX {
        if !answer_some(&rt, &mut block, &mut out)? {
            break;
        }
    }
    Ok(())
}
