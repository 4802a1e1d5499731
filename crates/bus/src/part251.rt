// Bank 1 (part251.rs, IEC 62386-251): its formats, its map and its texts.
ghost use Rattle.std.specs.Prelude.{◌≡◌};
ghost use Rattle.bus.specs.Part251.{id_of, format_of, min_last_offset, has_light_distribution, has_extended_block};

use crate::ValueWidth;
use crate::layout::{BankField, field};

pub const BANK_LUMINAIRE_INFO: u8 = 1;

pub const CONTENT_FORMAT_ID_OFFSET: u8 = 0x11;

pub const BANK1_BASE_LAST_OFFSET: u8 = 0x10;

pub const BANK1_FORMAT_GATE_LAST_OFFSET: u8 = 0x12;

#[derive(Clone, Copy, PartialEq, Eq, PartialOrd, Ord)]
pub enum LuminaireFormat {
    V3,
    V4,
    V5,
}

// The two conversions keep the Rust's names.
impl LuminaireFormat {
    #[tactic(auto, unfolding(crate::specs::Part251::format_of, crate::specs::Maps::first_with))]
    pub fn from_content_format_id(id: u16) -> Option<LuminaireFormat>
        ensures { result ≡ format_of id }
    {
        match id {
            3 => Some(LuminaireFormat::V3),
            4 => Some(LuminaireFormat::V4),
            5 => Some(LuminaireFormat::V5),
            _ => None,
        }
    }

    pub fn content_format_id(self) -> u16
        ensures { result ≡ id_of self }
    {
        match self {
            LuminaireFormat::V3 => 3,
            LuminaireFormat::V4 => 4,
            LuminaireFormat::V5 => 5,
        }
    }

    pub fn min_last_offset(self) -> u8
        ensures { result ≡ min_last_offset self }
    {
        match self {
            LuminaireFormat::V3 => 0x77,
            LuminaireFormat::V4 => 0x8F,
            LuminaireFormat::V5 => 0xC9,
        }
    }

    // From format 4 on.
    pub fn has_light_distribution(self) -> bool
        ensures { result ≡ has_light_distribution self }
    {
        LuminaireFormat::V4 <= self
    }

    // From format 5 on.
    pub fn has_extended_block(self) -> bool
        ensures { result ≡ has_extended_block self }
    {
        LuminaireFormat::V5 <= self
    }
}

pub const YEAR_OFFSET: u8 = 0x13;

pub const WEEK_OFFSET: u8 = 0x14;

pub const NOMINAL_INPUT_POWER_OFFSET: u8 = 0x15;

pub const POWER_AT_MINIMUM_OFFSET: u8 = 0x17;

pub const NOMINAL_MIN_AC_VOLTAGE_OFFSET: u8 = 0x19;

pub const NOMINAL_MAX_AC_VOLTAGE_OFFSET: u8 = 0x1B;

pub const NOMINAL_LIGHT_OUTPUT_OFFSET: u8 = 0x1D;

pub const CRI_OFFSET: u8 = 0x20;

pub const CCT_OFFSET: u8 = 0x21;

pub const LIGHT_DISTRIBUTION_TYPE_OFFSET: u8 = 0x23;

// IEC 62386-251. A constant array's type has its length.
pub const BANK_LUMINAIRE_INFO_MAP: [BankField; 28] = [
    field!(0x00, U8),
    field!(0x01, U8),
    field!(0x02, U8),
    field!(0x03, U8),
    field!(0x04, U8),
    field!(0x05, U8),
    field!(0x06, U8),
    field!(0x07, U8),
    field!(0x08, U8),
    field!(0x09, U8),
    field!(0x0A, U8),
    field!(0x0B, U8),
    field!(0x0C, U8),
    field!(0x0D, U8),
    field!(0x0E, U8),
    field!(0x0F, U8),
    field!(0x10, U8),
    field!(CONTENT_FORMAT_ID_OFFSET, U16),
    field!(YEAR_OFFSET, U8),
    field!(WEEK_OFFSET, U8),
    field!(NOMINAL_INPUT_POWER_OFFSET, U16),
    field!(POWER_AT_MINIMUM_OFFSET, U16),
    field!(NOMINAL_MIN_AC_VOLTAGE_OFFSET, U16),
    field!(NOMINAL_MAX_AC_VOLTAGE_OFFSET, U16),
    field!(NOMINAL_LIGHT_OUTPUT_OFFSET, U24),
    field!(CRI_OFFSET, U8),
    field!(CCT_OFFSET, U16),
    field!(LIGHT_DISTRIBUTION_TYPE_OFFSET, U8),
];

#[derive(Clone, Copy)]
pub struct TextRegion {
    pub offset: u8,
    pub len: u8,
}

pub const LUMINAIRE_COLOUR: TextRegion = TextRegion {
    offset: 0x24,
    len: 24,
};

pub const LUMINAIRE_IDENTIFICATION: TextRegion = TextRegion {
    offset: 0x3C,
    len: 60,
};

pub const LIGHT_DISTRIBUTION: TextRegion = TextRegion {
    offset: 0x78,
    len: 24,
};

pub const OEM_NAME: TextRegion = TextRegion {
    offset: 0x90,
    len: 32,
};

pub const CUSTOMER_STOCKING_NUMBER: TextRegion = TextRegion {
    offset: 0xB0,
    len: 16,
};

pub const FREE_USE: TextRegion = TextRegion {
    offset: 0xC2,
    len: 8,
};

pub const LAMP_CURRENT_OFFSET: u8 = 0xC0;
