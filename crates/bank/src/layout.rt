// How many bytes of a bank to read at once (layout.rs).
ghost use Rattle.std.specs.Prelude.{◌≡◌, ◌+◌, ◌≤◌};
ghost use Rattle.bank.specs.Chunk.{fields_from, with_further, whole_fields, chunk_len, lamp_whole, lamp_len, chunk_in};

use bus::layout::{
    BANK_ENERGY, BANK_GEAR_DIAGNOSTICS, BANK_LUMINAIRE, BANK_SOURCE_DIAGNOSTICS, BankMap, map_of,
};
use bus::part251::{BANK_LUMINAIRE_INFO_MAP, LAMP_CURRENT_OFFSET};
use bus::{BANK_LUMINAIRE_INFO, BankField};

const LAMP_CURRENT: u16 = LAMP_CURRENT_OFFSET as u16;

const LAMP_CURRENT_LEN: u16 = 2;

// Its low byte, which is its last.
const LAMP_CURRENT_LOW: u16 = LAMP_CURRENT + LAMP_CURRENT_LEN - 1;

// The fields from the one that starts at the offset on; none where none does.
fn fields_from(fields: &[BankField], offset: u16) -> &[BankField]
    ensures { result.now ≡ fields_from offset fields.now }
{
    match fields
        .iter()
        .position(|field| field.offset as u16 == offset)
    {
        Some(i) => &fields[i..],
        None => &[],
    }
}

// The bytes that are taken, with those of further fields while they fit whole.
fn with_further(fields: &[BankField], limit: u16, taken: u16) -> u16
    ensures { result ≡ with_further limit taken fields.now }
{
    let mut taken = taken;
    for field in fields {
        let bytes = field.width.bytes() as u16;
        if limit < bytes || limit - bytes < taken {
            break;
        }
        taken += bytes;
    }
    taken
}

// The chunk that fields give, where limit is the smaller of budget and remaining.
fn whole_fields(fields: &[BankField], remaining: u16, limit: u16) -> u16
    ensures { result ≡ whole_fields remaining limit fields.now }
{
    let Some((first, further)) = fields.split_first() else {
        return limit;
    };
    let bytes = first.width.bytes() as u16;
    if remaining < bytes {
        return limit;
    }
    with_further(further, limit, bytes)
}

// The chunk that fields give from an offset on.
#[inline(always)]
fn chunk_of(fields: &[BankField], offset: u16, remaining: u16, limit: u16) -> u16
    ensures { result ≡ whole_fields remaining limit (fields_from offset fields.now) }
{
    whole_fields(fields_from(fields, offset), remaining, limit)
}

// DiiA 252 §9.2.2. An arm for each map, so that the search goes along a table that the compiler knows: in bank 1 in half
// the time.
pub fn chunk_len(bank: u8, offset: u16, remaining: u16, budget: u16) -> u16
    ensures { result ≡ chunk_len bank offset remaining budget }
{
    let limit = u16::min(budget, remaining);
    match map_of(bank) {
        BankMap::LuminaireInfo => chunk_of(&BANK_LUMINAIRE_INFO_MAP, offset, remaining, limit),
        BankMap::Energy => chunk_of(&BANK_ENERGY, offset, remaining, limit),
        BankMap::GearDiagnostics => chunk_of(&BANK_GEAR_DIAGNOSTICS, offset, remaining, limit),
        BankMap::SourceDiagnostics => chunk_of(&BANK_SOURCE_DIAGNOSTICS, offset, remaining, limit),
        BankMap::Maintenance => chunk_of(&BANK_LUMINAIRE, offset, remaining, limit),
        BankMap::Missing => limit,
    }
}

// Which rule a read-out's chunks follow.
#[derive(Clone, Copy)]
pub enum ChunkMode {
    // `chunk_len`.
    Plain,
    // The same, but the lamp current of bank 1 in format 5 comes in one chunk: a driver may change it between two reads.
    LampCurrent,
}

// The chunk in the place of one that may part the lamp current: a longer one leaves out its first byte, and a single byte
// takes the second with it if that remains.
fn lamp_whole(offset: u16, remaining: u16, len: u16) -> u16
    ensures { result ≡ lamp_whole offset remaining len }
{
    if offset as u32 + len as u32 != LAMP_CURRENT_LOW as u32 {
        return len;
    }
    if 1 < len {
        len - 1
    } else if offset == LAMP_CURRENT && LAMP_CURRENT_LEN <= remaining {
        LAMP_CURRENT_LEN
    } else {
        len
    }
}

// Of the bank it looks at the number alone: the caller knows the format.
fn lamp_len(bank: u8, offset: u16, remaining: u16, budget: u16) -> u16
    ensures { result ≡ lamp_len bank offset remaining budget }
{
    let len = chunk_len(bank, offset, remaining, budget);
    if bank != BANK_LUMINAIRE_INFO {
        return len;
    }
    lamp_whole(offset, remaining, len)
}

impl ChunkMode {
    pub fn chunk_len(self, bank: u8, offset: u16, remaining: u16, budget: u16) -> u16
        ensures { result ≡ chunk_in self bank offset remaining budget }
    {
        match self {
            ChunkMode::Plain => chunk_len(bank, offset, remaining, budget),
            ChunkMode::LampCurrent => lamp_len(bank, offset, remaining, budget),
        }
    }
}
