// The functions of layout.rs, and the modes of a chunk, which the Rust lacks.
use crate::output::{Output, Put};
use crate::request::{Request, Take};
use bank::ChunkMode;
use bus::BankField;

// By a match, as in main.rt.
pub(crate) fn answer(number: u8, request: &mut Request, out: &mut Output) {
    match number {
        0x10 => out.put(bus::bank_last_offset(request.take())),
        0x11 => out.put(
            bus::bank_field_map(request.take())
                .get(usize::take(request))
                .copied(),
        ),
        0x12 => out.put(bus::bank_field_map(request.take()).len()),
        0x13 => out.put(bus::field_containing(request.take(), request.take())),
        0x14 => out.put(bus::is_field_boundary(request.take(), request.take())),
        0x15 => constants(out),
        0x16 => out.put(bank::chunk_len(
            request.take(),
            request.take(),
            request.take(),
            request.take(),
        )),
        0x17 => out.put(ChunkMode::take(request).chunk_len(
            request.take(),
            request.take(),
            request.take(),
            request.take(),
        )),
        _ => {}
    }
}

fn constants(out: &mut Output) {
    out.put(bus::BANK_META_LEN);
    out.put([
        bus::BANK_LOCK_BYTE,
        bus::BANK_VERSION_OFFSET,
        bus::DEVICE_TYPE_ENERGY,
        bus::DEVICE_TYPE_DIAGNOSTICS,
        bus::BANK_ACTIVE_ENERGY,
        bus::BANK_APPARENT_ENERGY,
        bus::BANK_LOADSIDE_ENERGY,
        bus::BANK_CONTROL_GEAR_DIAGNOSTICS,
        bus::BANK_LIGHT_SOURCE_DIAGNOSTICS,
        bus::BANK_LUMINAIRE_MAINTENANCE,
    ]);
}

impl Put for BankField {
    fn put(self, out: &mut Output) {
        out.put(self.offset);
        out.put(self.width);
    }
}

impl Take<'_> for ChunkMode {
    fn take(request: &mut Request) -> Self {
        match u8::take(request) {
            0 => ChunkMode::Plain,
            _ => ChunkMode::LampCurrent,
        }
    }
}

impl Put for ChunkMode {
    fn put(self, out: &mut Output) {
        out.put(self as u8);
    }
}
