// The writes of luminaire_write.rs, their stages, and the plan, which the Rust lacks.
use crate::output::Output;
use crate::request::{REQUEST_LEN, Request, Take};
use bank::luminaire_write::LUMINAIRE_FIELDS;
use records::luminaire_write::{BANK_UNLOCKED, BANK1_HEADER_LEN, TEXT_TERMINATOR};
use records::{FieldWrite, LuminaireNumbers, Plan, WriteStage, planned_writes};

// A place for a write.
const NO_WRITE: FieldWrite = FieldWrite { field: 0, len: 0 };

// By a match, as in main.rt.
pub(crate) fn answer(number: u8, request: &mut Request, out: &mut Output) {
    match number {
        0x39 => writes(request, out),
        0x3A => out.put(take_write(request).0.end()),
        0x3B => held_by(request, out),
        0x3C => stages(request, out),
        0x3D => out.put(LuminaireNumbers::take(request).wanted()),
        0x3E => stores(request, out),
        0x3F => constants(out),
        0x46 => out.put(Plan::take(request).count(request.take())),
        _ => {}
    }
}

// Puts the outputs as the call left them. A write's field and its length stand in outputs of their own, each of which takes
// the leading ones.
fn writes(request: &mut Request, out: &mut Output) {
    let numbers = request.take();
    let text_field = request.take();
    let text = request.take();
    let mut field_space = [0; REQUEST_LEN];
    let fields = request.lend(&mut field_space);
    let mut len_space = [0; REQUEST_LEN];
    let lens = request.lend(&mut len_space);
    let mut byte_space = [0; REQUEST_LEN];
    let bytes = request.lend(&mut byte_space);
    let mut write_space = [NO_WRITE; LUMINAIRE_FIELDS.len()];
    let room = fields.len().max(lens.len()).min(write_space.len());
    let count = planned_writes(numbers, text_field, text, &mut write_space[..room], bytes);
    let writes = &write_space[..count.min(room)];
    for (field, write) in fields.iter_mut().zip(writes) {
        *field = u8::try_from(write.field).unwrap_or(u8::MAX);
    }
    for (len, write) in lens.iter_mut().zip(writes) {
        *len = write.len;
    }
    out.put(count);
    out.put(&*fields);
    out.put(&*lens);
    out.put(&*bytes);
}

fn held_by(request: &mut Request, out: &mut Output) {
    let (write, bytes) = take_write(request);
    out.put(write.held_by(bytes, request.take()));
}

fn stages(request: &mut Request, out: &mut Output) {
    let (write, bytes) = take_write(request);
    let count = write.stages();
    out.put(count);
    for place in 0..count {
        if let Some(stage) = write.stage(place) {
            put_stage(stage, bytes, out);
        }
    }
}

fn put_stage(stage: WriteStage, bytes: &[u8], out: &mut Output) {
    let own = stage.bytes(bytes);
    out.put(stage.field);
    out.put(stage.offset);
    out.put(u16::try_from(own.len()).unwrap_or(u16::MAX));
    out.put(own);
}

// Puts the outputs as the call left them.
fn stores(request: &mut Request, out: &mut Output) {
    let plan = Plan::take(request);
    let text = request.take();
    let mut offset_space = [0; REQUEST_LEN];
    let offsets = request.lend(&mut offset_space);
    let mut value_space = [0; REQUEST_LEN];
    let values = request.lend(&mut value_space);
    out.put(plan.stores(text, offsets, values));
    out.put(&*offsets);
    out.put(&*values);
}

fn constants(out: &mut Output) {
    out.put(BANK_UNLOCKED);
    out.put(BANK1_HEADER_LEN);
    out.put(TEXT_TERMINATOR);
}

// A write and its bytes, of which a request has at most 255.
fn take_write<'a>(request: &mut Request<'a>) -> (FieldWrite, &'a [u8]) {
    let field = request.take();
    let bytes = <&[u8]>::take(request);
    let len = u8::try_from(bytes.len()).unwrap_or(u8::MAX);
    (FieldWrite { field, len }, bytes)
}

impl Take<'_> for LuminaireNumbers {
    fn take(request: &mut Request) -> Self {
        LuminaireNumbers {
            patch_mask: request.take(),
            year: request.take(),
            week: request.take(),
            nominal_input_power_w: request.take(),
            power_at_minimum_w: request.take(),
            nominal_min_ac_voltage_v: request.take(),
            nominal_max_ac_voltage_v: request.take(),
            nominal_light_output_lm: request.take(),
            cri: request.take(),
            cct_kelvin: request.take(),
            light_distribution_type: request.take(),
            lamp_current_ma: request.take(),
        }
    }
}

impl Take<'_> for Plan {
    fn take(request: &mut Request) -> Self {
        Plan {
            layout: request.take(),
            numbers: request.take(),
            text_field: request.take(),
        }
    }
}
