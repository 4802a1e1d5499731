// The bus layer: the widths of a bank's values (banks/mod.rs), and below it the maps of the banks
// (layout.rs) and the formats and texts of bank 1 (part251.rs).
#![tactic(auto)]

pub mod layout;
pub mod part251;

ghost use Rattle.std.specs.Prelude.{◌≡◌, ◌*◌, ◌^◌, ◌<◌, length, take};
ghost use Rattle.bus.specs.Number.{number};
ghost use Rattle.bus.specs.Width.{bytes_of, signed, mask_of, tmask_of, max_valid_of, to_signed, signed_meaning};
ghost use Rattle.bus.specs.Value.{classified, value_of, value_in, FitsWidth, unavailable, saturated, read_at, encoded};

pub use layout::{
    BANK_ACTIVE_ENERGY, BANK_APPARENT_ENERGY, BANK_CONTROL_GEAR_DIAGNOSTICS,
    BANK_LIGHT_SOURCE_DIAGNOSTICS, BANK_LOADSIDE_ENERGY, BANK_LOCK_BYTE,
    BANK_LUMINAIRE_MAINTENANCE, BANK_META_LEN, BANK_VERSION_OFFSET, BankField,
    DEVICE_TYPE_DIAGNOSTICS, DEVICE_TYPE_ENERGY, bank_field_map, bank_last_offset,
    field_containing, is_field_boundary,
};
pub use part251::{
    BANK_LUMINAIRE_INFO, BANK1_BASE_LAST_OFFSET, BANK1_FORMAT_GATE_LAST_OFFSET,
    CONTENT_FORMAT_ID_OFFSET, LuminaireFormat, TextRegion,
};

// Asked of its callers, each of whom has an exponent below 64: a shift by more has no meaning.
fn power_of_two(exponent: usize) -> u64
    requires { exponent < 64 }
    ensures { result ≡ 2 ^ exponent }
{
    1 << exponent
}

#[derive(Clone, Copy)]
pub enum ValueWidth {
    U8,
    U16,
    U24,
    U32,
    U48,
    I8,
    I16,
    I32,
}

impl ValueWidth {
    pub fn bytes(self) -> usize
        ensures { result ≡ bytes_of self }
    {
        match self {
            ValueWidth::U8 | ValueWidth::I8 => 1,
            ValueWidth::U16 | ValueWidth::I16 => 2,
            ValueWidth::U24 => 3,
            ValueWidth::U32 | ValueWidth::I32 => 4,
            ValueWidth::U48 => 6,
        }
    }

    // DiiA 252 Table 2: of a signed width one bit is the sign's. A number for each width, which is looked up faster than
    // a power is computed.
    pub fn mask(self) -> u64
        ensures { result ≡ mask_of self }
    {
        match self {
            ValueWidth::U8 => 0xFF,
            ValueWidth::U16 => 0xFFFF,
            ValueWidth::U24 => 0xFF_FFFF,
            ValueWidth::U32 => 0xFFFF_FFFF,
            ValueWidth::U48 => 0xFFFF_FFFF_FFFF,
            ValueWidth::I8 => 0x7F,
            ValueWidth::I16 => 0x7FFF,
            ValueWidth::I32 => 0x7FFF_FFFF,
        }
    }

    // DiiA 252 Table 3
    pub fn tmask(self) -> u64
        ensures { result ≡ tmask_of self }
    {
        self.mask() - 1
    }

    // DiiA 252 §9.2.8
    pub fn max_valid(self) -> u64
        ensures { result ≡ max_valid_of self }
    {
        self.mask() - 2
    }

    pub fn is_signed(self) -> bool
        ensures { result ≡ signed self }
    {
        matches!(self, ValueWidth::I8 | ValueWidth::I16 | ValueWidth::I32)
    }

    // The signed meaning of the low bytes of raw, at any width, without a branch: the first remainder keeps the sum
    // within 64 bits, and the second takes the range off the upper half, whose meaning is below zero.
    pub fn to_signed(self, raw: u64) -> i64
        ensures { result ≡ to_signed self raw }
    {
        let range = power_of_two(8 * self.bytes());
        let half = range / 2;
        ((raw % range + half) % range) as i64 - half as i64
    }
}

// The signed meaning of a byte.
pub fn signed_byte(raw: u8) -> i8
    ensures { result ≡ signed_meaning 8 raw }
{
    ValueWidth::I8.to_signed(raw as u64) as i8
}

#[derive(Clone, Copy)]
pub enum BankValue {
    Reading(u64),
    NotImplemented,
    TemporarilyUnavailable,
}

impl BankValue {
    pub fn value(self) -> Option<u64>
        ensures { result ≡ value_of self }
    {
        match self {
            BankValue::Reading(v) => Some(v),
            BankValue::NotImplemented | BankValue::TemporarilyUnavailable => None,
        }
    }

    pub fn is_temporarily_unavailable(self) -> bool
        ensures { result ≡ unavailable self }
    {
        matches!(self, BankValue::TemporarilyUnavailable)
    }

    pub fn is_saturated(self, width: ValueWidth) -> bool
        ensures { result ≡ saturated width self }
    {
        matches!(self, BankValue::Reading(v) if v == width.max_valid())
    }
}

// The number that bytes make, high byte first; of more than eight the first eight.
pub fn number_of(bytes: &[u8]) -> u64
    ensures value { result ≡ number (take 8 bytes.now) }
    ensures below { result < 2 ^ (8 * length bytes.now) }
{
    let first = &bytes[..usize::min(8, bytes.len())];
    let mut number = 0;
    for byte in first {
        number = number * 256 + *byte as u64;
    }
    number
}

// What a bank's bytes say at an offset; nothing where they are not all present.
pub fn read_value(bytes: &[u8], offset: usize, width: ValueWidth) -> Option<BankValue>
    ensures value { result ≡ read_at width offset bytes.now }
    ensures fits { FitsWidth width (value_in result) }
{
    let end = offset.checked_add(width.bytes())?;
    let field = bytes.get(offset..end)?;
    Some(classify(number_of(field), width))
}

pub fn classify(raw: u64, width: ValueWidth) -> BankValue
    ensures { result ≡ classified width raw }
{
    if raw == width.mask() {
        BankValue::NotImplemented
    } else if raw == width.tmask() {
        BankValue::TemporarilyUnavailable
    } else {
        BankValue::Reading(raw)
    }
}

// Stores the low bytes of raw, high byte first: a short output takes the leading ones.
pub fn encode_value(raw: u64, width: ValueWidth, out: &mut [u8])
    ensures { out.new ≡ encoded width raw out.old }
{
    let bytes = raw.to_be_bytes();
    let low = &bytes[8 - width.bytes()..];
    let n = usize::min(low.len(), out.len());
    out[..n].copy_from_slice(&low[..n]);
}
