// The functions of banks/mod.rs.
use crate::output::{Output, Put};
use crate::request::{REQUEST_LEN, Request, Take};
use bus::{BankValue, ValueWidth};

// By a match, as in main.rt; and so is an enum taken, as in request.rt.
pub(crate) fn answer(number: u8, request: &mut Request, out: &mut Output) {
    match number {
        0x01 => out.put(ValueWidth::take(request).bytes()),
        0x02 => out.put(ValueWidth::take(request).mask()),
        0x03 => out.put(ValueWidth::take(request).tmask()),
        0x04 => out.put(ValueWidth::take(request).max_valid()),
        0x05 => out.put(ValueWidth::take(request).is_signed()),
        0x06 => out.put(ValueWidth::take(request).to_signed(request.take())),
        0x07 => out.put(BankValue::take(request).value()),
        0x08 => out.put(BankValue::take(request).is_temporarily_unavailable()),
        0x09 => is_saturated(request, out),
        0x0A => read_value(request, out),
        0x0B => out.put(bus::classify(request.take(), request.take())),
        0x0C => encode_value(request, out),
        0x0D => out.put(bus::signed_byte(request.take())),
        _ => {}
    }
}

fn is_saturated(request: &mut Request, out: &mut Output) {
    let width = request.take();
    out.put(BankValue::take(request).is_saturated(width));
}

fn read_value(request: &mut Request, out: &mut Output) {
    let offset = request.take();
    let width = request.take();
    out.put(bus::read_value(request.take(), offset, width));
}

fn encode_value(request: &mut Request, out: &mut Output) {
    let raw = request.take();
    let width = request.take();
    let mut space = [0; REQUEST_LEN];
    let lent = request.lend(&mut space);
    bus::encode_value(raw, width, lent);
    out.put(&*lent);
}

impl Take<'_> for ValueWidth {
    fn take(request: &mut Request) -> Self {
        match u8::take(request) {
            0 => ValueWidth::U8,
            1 => ValueWidth::U16,
            2 => ValueWidth::U24,
            3 => ValueWidth::U32,
            4 => ValueWidth::U48,
            5 => ValueWidth::I8,
            6 => ValueWidth::I16,
            _ => ValueWidth::I32,
        }
    }
}

impl Put for ValueWidth {
    fn put(self, out: &mut Output) {
        out.put(self as u8);
    }
}

impl Take<'_> for BankValue {
    fn take(request: &mut Request) -> Self {
        match u8::take(request) {
            0 => BankValue::Reading(request.take()),
            1 => BankValue::NotImplemented,
            _ => BankValue::TemporarilyUnavailable,
        }
    }
}

impl Put for BankValue {
    fn put(self, out: &mut Output) {
        match self {
            BankValue::Reading(value) => out.variant(0, value),
            BankValue::NotImplemented => out.variant(1, ()),
            BankValue::TemporarilyUnavailable => out.variant(2, ()),
        }
    }
}
