// The answers as text, in the digits of a request. An answer stops where the text is full, which shows as a difference.
ghost use Rattle.std.specs.Prelude.{◌≤◌, length};

use records::output::hex_digits;
use std::io;

// Room for the answers that are not written yet.
const TEXT_LEN: usize = 65_536;

// The answers that are not written yet: the first `len` bytes of the text, without a heap.
#[derive(Drop)]
pub(crate) struct Output {
    text: [u8; TEXT_LEN],
    len: usize,
    ghost fits: { len ≤ length text },
}

// A value that an answer has.
pub(crate) trait Put {
    fn put(self, out: &mut Output);
}

impl Output {
    pub(crate) fn new() -> Output {
        Output {
            text: [0; TEXT_LEN],
            len: 0,
        }
    }

    pub(crate) fn put<T: Put>(&mut self, value: T) {
        value.put(self);
    }

    // The place of a variant, and what it holds.
    pub(crate) fn variant<T: Put>(&mut self, place: u8, held: T) {
        self.byte(place);
        self.put(held);
    }

    fn byte(&mut self, byte: u8) {
        if self.len + 1 < TEXT_LEN {
            let [high, low] = hex_digits(byte);
            self.text[self.len] = high;
            self.text[self.len + 1] = low;
            self.len += 2;
        }
    }

    pub(crate) fn end_line(&mut self) {
        if self.len < TEXT_LEN {
            self.text[self.len] = b'\n';
            self.len += 1;
        }
    }

    pub(crate) fn is_half_full(&self) -> bool {
        TEXT_LEN / 2 < self.len
    }

    pub(crate) fn flush(&mut self, rt: &impl Print) -> io::Result<()> {
        rt.write_all(&self.text[..self.len])?;
        self.len = 0;
        Ok(())
    }
}

impl Put for u8 {
    fn put(self, out: &mut Output) {
        out.byte(self);
    }
}

impl Put for bool {
    fn put(self, out: &mut Output) {
        out.byte(self as u8);
    }
}

// The numbers have one each, here and in request.rt, since no macro may write an impl.
impl Put for u16 {
    fn put(self, out: &mut Output) {
        out.put(self.to_be_bytes());
    }
}

impl Put for u32 {
    fn put(self, out: &mut Output) {
        out.put(self.to_be_bytes());
    }
}

impl Put for u64 {
    fn put(self, out: &mut Output) {
        out.put(self.to_be_bytes());
    }
}

impl Put for usize {
    fn put(self, out: &mut Output) {
        out.put(self.to_be_bytes());
    }
}

// The number n, or -1 - n below zero, behind whether it is below zero.
impl Put for i64 {
    fn put(self, out: &mut Output) {
        out.put(self < 0);
        out.put(if self < 0 {
            (-1 - self) as u64
        } else {
            self as u64
        });
    }
}

impl Put for i8 {
    fn put(self, out: &mut Output) {
        out.put(i64::from(self));
    }
}

impl Put for () {
    fn put(self, _out: &mut Output) {}
}

impl<const N: usize> Put for [u8; N] {
    fn put(self, out: &mut Output) {
        out.put(self.as_slice());
    }
}

impl<T: Put + Copy> Put for &[T] {
    fn put(self, out: &mut Output) {
        for value in self {
            out.put(*value);
        }
    }
}

impl<T: Put> Put for Option<T> {
    fn put(self, out: &mut Output) {
        match self {
            Some(value) => out.variant(1, value),
            None => out.variant(0, ()),
        }
    }
}

// A refusal begins with its number, which is not 0.
impl<T: Put, E: Put> Put for Result<T, E> {
    fn put(self, out: &mut Output) {
        match self {
            Ok(value) => out.variant(0, value),
            Err(refusal) => out.put(refusal),
        }
    }
}
