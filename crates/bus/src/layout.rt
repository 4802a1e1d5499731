// The field maps of the banks (layout.rs): constant tables of offset and width, and the look-ups in them.
ghost use Rattle.std.specs.Prelude.{◌≡◌, option_map};
ghost use Rattle.bus.specs.Maps.{fields, map_at, map_of, fixed_last, holds, first_with, field_containing, is_boundary};

use crate::ValueWidth;
use crate::part251::{BANK_LUMINAIRE_INFO, BANK_LUMINAIRE_INFO_MAP};

#[derive(Clone, Copy)]
pub struct BankField {
    pub offset: u8,
    pub width: ValueWidth,
}

impl BankField {
    // The byte at an offset is one of the field's.
    fn holds(self, offset: u16) -> bool
        ensures { result ≡ holds offset self }
    {
        let start = self.offset as u16;
        start <= offset && offset < start + self.width.bytes() as u16
    }
}

// A field by its offset and width, for the tables.
macro_rules! field {
    ($offset:expr, $width:ident) => {
        BankField {
            offset: $offset,
            width: ValueWidth::$width,
        }
    };
}

pub(crate) use field;

pub const BANK_META_LEN: u16 = 3;

pub const BANK_LOCK_BYTE: u8 = 0x02;

pub const BANK_VERSION_OFFSET: u8 = 0x03;

const META_0: BankField = field!(0x00, U8);

const META_1: BankField = field!(0x01, U8);

const META_2: BankField = field!(0x02, U8);

// DiiA 252 §9.2.9, §9.2.10, §9.2.11
pub const BANK_ENERGY: [BankField; 8] = [
    META_0,
    META_1,
    META_2,
    field!(0x03, U8),
    field!(0x04, I8),
    field!(0x05, U48),
    field!(0x0B, I8),
    field!(0x0C, U32),
];

// DiiA 253 §9.2.16
pub const BANK_GEAR_DIAGNOSTICS: [BankField; 23] = [
    META_0,
    META_1,
    META_2,
    field!(0x03, U8),
    field!(0x04, U32),
    field!(0x08, U24),
    field!(0x0B, U16),
    field!(0x0D, U8),
    field!(0x0E, U8),
    field!(0x0F, U8),
    field!(0x10, U8),
    field!(0x11, U8),
    field!(0x12, U8),
    field!(0x13, U8),
    field!(0x14, U8),
    field!(0x15, U8),
    field!(0x16, U8),
    field!(0x17, U8),
    field!(0x18, U8),
    field!(0x19, U8),
    field!(0x1A, U8),
    field!(0x1B, U8),
    field!(0x1C, U8),
];

// DiiA 253 §9.2.17
pub const BANK_SOURCE_DIAGNOSTICS: [BankField; 21] = [
    META_0,
    META_1,
    META_2,
    field!(0x03, U8),
    field!(0x04, U24),
    field!(0x07, U24),
    field!(0x0A, U32),
    field!(0x0E, U32),
    field!(0x12, U16),
    field!(0x14, U16),
    field!(0x16, U8),
    field!(0x17, U8),
    field!(0x18, U8),
    field!(0x19, U8),
    field!(0x1A, U8),
    field!(0x1B, U8),
    field!(0x1C, U8),
    field!(0x1D, U8),
    field!(0x1E, U8),
    field!(0x1F, U8),
    field!(0x20, U8),
];

// DiiA 253 §9.2.18
pub const BANK_LUMINAIRE: [BankField; 7] = [
    META_0,
    META_1,
    META_2,
    field!(0x03, U8),
    field!(0x04, U8),
    field!(0x05, U8),
    field!(0x06, U16),
];

pub const DEVICE_TYPE_ENERGY: u8 = 51;

pub const DEVICE_TYPE_DIAGNOSTICS: u8 = 52;

pub const BANK_ACTIVE_ENERGY: u8 = 202;

pub const BANK_APPARENT_ENERGY: u8 = 203;

pub const BANK_LOADSIDE_ENERGY: u8 = 204;

pub const BANK_CONTROL_GEAR_DIAGNOSTICS: u8 = 205;

pub const BANK_LIGHT_SOURCE_DIAGNOSTICS: u8 = 206;

pub const BANK_LUMINAIRE_MAINTENANCE: u8 = 207;

// The maps: banks 202 to 204 share one, and a bank that is not named has none, which is a map of no field.
#[derive(Clone, Copy)]
pub enum BankMap {
    LuminaireInfo,
    Energy,
    GearDiagnostics,
    SourceDiagnostics,
    Maintenance,
    Missing,
}

impl BankMap {
    fn fields(self) -> &'static [BankField]
        ensures { result.now ≡ fields self }
    {
        match self {
            BankMap::LuminaireInfo => &BANK_LUMINAIRE_INFO_MAP,
            BankMap::Energy => &BANK_ENERGY,
            BankMap::GearDiagnostics => &BANK_GEAR_DIAGNOSTICS,
            BankMap::SourceDiagnostics => &BANK_SOURCE_DIAGNOSTICS,
            BankMap::Maintenance => &BANK_LUMINAIRE,
            BankMap::Missing => &[],
        }
    }
}

// The map of a bank, by its number. A bank without one, as most are, is told by a single range.
pub fn map_of(bank: u8) -> BankMap
    ensures { result ≡ map_at bank }
{
    if bank == BANK_LUMINAIRE_INFO {
        return BankMap::LuminaireInfo;
    }
    if bank < BANK_ACTIVE_ENERGY || BANK_LUMINAIRE_MAINTENANCE < bank {
        return BankMap::Missing;
    }
    match bank {
        BANK_CONTROL_GEAR_DIAGNOSTICS => BankMap::GearDiagnostics,
        BANK_LIGHT_SOURCE_DIAGNOSTICS => BankMap::SourceDiagnostics,
        BANK_LUMINAIRE_MAINTENANCE => BankMap::Maintenance,
        _ => BankMap::Energy,
    }
}

// The last offset of a bank whose length is fixed. By an arm for each bank: that is one look-up, and a map in between two.
#[tactic(auto, unfolding(crate::specs::Maps::map_at))]
pub fn bank_last_offset(bank: u8) -> Option<u8>
    ensures { result ≡ fixed_last (map_at bank) }
{
    match bank {
        BANK_ACTIVE_ENERGY => Some(0x0F),
        BANK_APPARENT_ENERGY => Some(0x0F),
        BANK_LOADSIDE_ENERGY => Some(0x0F),
        BANK_CONTROL_GEAR_DIAGNOSTICS => Some(0x1C),
        BANK_LIGHT_SOURCE_DIAGNOSTICS => Some(0x20),
        BANK_LUMINAIRE_MAINTENANCE => Some(0x07),
        _ => None,
    }
}

// The fields of a bank, by rising offset.
pub fn bank_field_map(bank: u8) -> &'static [BankField]
    ensures { result.now ≡ map_of bank }
{
    map_of(bank).fields()
}

// The first of the fields that the byte at an offset belongs to.
#[inline(always)]
fn containing(fields: &[BankField], offset: u16) -> Option<&BankField>
    ensures { option_map (λ field. field.now) result ≡ first_with (holds offset) fields.now }
{
    fields.iter().find(|field| field.holds(offset))
}

// The same for a map: an arm for each, so that the search goes along a table that the compiler knows, in two thirds of the time.
#[inline(never)]
fn found_in(map: BankMap, offset: u16) -> Option<&'static BankField>
    ensures { option_map (λ field. field.now) result ≡ first_with (holds offset) (fields map) }
{
    match map {
        BankMap::LuminaireInfo => containing(&BANK_LUMINAIRE_INFO_MAP, offset),
        BankMap::Energy => containing(&BANK_ENERGY, offset),
        BankMap::GearDiagnostics => containing(&BANK_GEAR_DIAGNOSTICS, offset),
        BankMap::SourceDiagnostics => containing(&BANK_SOURCE_DIAGNOSTICS, offset),
        BankMap::Maintenance => containing(&BANK_LUMINAIRE, offset),
        BankMap::Missing => None,
    }
}

// The field of a bank that the byte at an offset belongs to. Most banks have no map, and are told before the search is called.
pub fn field_containing(bank: u8, offset: u16) -> Option<BankField>
    ensures { result ≡ field_containing bank offset }
{
    match map_of(bank) {
        BankMap::Missing => None,
        map => found_in(map, offset).copied(),
    }
}

// A part of a bank that starts at the offset, or ends before it, cuts no field.
pub fn is_field_boundary(bank: u8, offset: u16) -> bool
    ensures { result ≡ is_boundary bank offset }
{
    match field_containing(bank, offset) {
        Some(field) => field.offset as u16 == offset,
        None => true,
    }
}
