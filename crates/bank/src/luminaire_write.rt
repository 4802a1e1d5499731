// The fields of bank 1 and whether they may be written (luminaire_write.rs, IEC 62386-251, DiiA 251).
ghost use Rattle.std.specs.Prelude.{◌≡◌, slice_get};
ghost use Rattle.bus.specs.Part251.{from_format};
ghost use Rattle.bank.specs.Refusal.{tested};
ghost use Rattle.bank.specs.Rules.{shows};
ghost use Rattle.bank.specs.Fields.{luminaire_fields, place_of, last_offset_of, ends_by, fits, accepts_number, is_printable, printable, first_not_printable, is_text_kind, accepts_text, id_in, from_header};
ghost use Rattle.bank.specs.Writable.{read_only, missing, format_in, check_writable, text_checks};

use crate::refusal::Refusal;
use bus::part251::{
    CCT_OFFSET, CONTENT_FORMAT_ID_OFFSET, CRI_OFFSET, CUSTOMER_STOCKING_NUMBER, FREE_USE,
    LAMP_CURRENT_OFFSET, LIGHT_DISTRIBUTION, LIGHT_DISTRIBUTION_TYPE_OFFSET, LUMINAIRE_COLOUR,
    LUMINAIRE_IDENTIFICATION, NOMINAL_INPUT_POWER_OFFSET, NOMINAL_LIGHT_OUTPUT_OFFSET,
    NOMINAL_MAX_AC_VOLTAGE_OFFSET, NOMINAL_MIN_AC_VOLTAGE_OFFSET, OEM_NAME,
    POWER_AT_MINIMUM_OFFSET, WEEK_OFFSET, YEAR_OFFSET,
};
use bus::{LuminaireFormat, number_of};

#[derive(Clone, Copy, PartialEq, Eq)]
pub enum NumberRule {
    Year,
    Week,
    Power,
    MainsVoltage,
    LightOutput,
    Cri,
    Cct,
    LightDistributionType,
    LampCurrent,
}

impl NumberRule {
    // The luminaire record shows the number as it is.
    pub fn shows_back(self, raw: u64, format: LuminaireFormat) -> bool
        ensures { result ≡ shows self format raw }
    {
        match self {
            NumberRule::Year => raw <= 99,
            NumberRule::Week => matches!(raw, 1..=53),
            NumberRule::Power => raw != 0xFFFF,
            NumberRule::MainsVoltage => matches!(raw, 90..=480),
            NumberRule::LightOutput => raw != 0xFF_FFFF,
            NumberRule::Cri => raw <= 100,
            NumberRule::Cct => raw <= 17_000,
            NumberRule::LightDistributionType => is_distribution_type(raw, format),
            NumberRule::LampCurrent => raw != 0xFFFF,
        }
    }
}

fn is_distribution_type(raw: u64, format: LuminaireFormat) -> bool
    ensures { result ≡ shows NumberRule.LightDistributionType format raw }
{
    match raw {
        0..=5 => true,
        6 | 253 | 254 => LuminaireFormat::V4 <= format,
        _ => false,
    }
}

#[derive(Clone, Copy, PartialEq, Eq)]
pub enum LuminaireTextField {
    LuminaireColour,
    LuminaireIdentification,
    LightDistribution,
    OemName,
    CustomerStockingNumber,
    FreeUse,
}

#[derive(Clone, Copy, PartialEq, Eq)]
pub enum FieldKind {
    LayoutId,
    Number { patch: u16, rule: NumberRule },
    Text(LuminaireTextField),
}

#[derive(Clone, Copy)]
pub struct LuminaireField {
    pub offset: u8,
    pub len: u8,
    pub since: LuminaireFormat,
    pub kind: FieldKind,
}

// A number's field: where it is, how long, from which format on, its mask bit and its rule.
macro_rules! number {
    ($offset:expr, $len:literal, $since:ident, $patch:literal, $rule:ident) => {
        LuminaireField {
            offset: $offset,
            len: $len,
            since: LuminaireFormat::$since,
            kind: FieldKind::Number {
                patch: $patch,
                rule: NumberRule::$rule,
            },
        }
    };
}

// A text's field: its region, from which format on, and which text.
macro_rules! text {
    ($region:ident, $since:ident, $which:ident) => {
        LuminaireField {
            offset: $region.offset,
            len: $region.len,
            since: LuminaireFormat::$since,
            kind: FieldKind::Text(LuminaireTextField::$which),
        }
    };
}

// DiiA 251 §9.2.5
// IEC 62386-251 Table 1
pub const LUMINAIRE_FIELDS: [LuminaireField; 18] = [
    LuminaireField {
        offset: CONTENT_FORMAT_ID_OFFSET,
        len: 2,
        since: LuminaireFormat::V3,
        kind: FieldKind::LayoutId,
    },
    number!(YEAR_OFFSET, 1, V3, 0x0001, Year),
    number!(WEEK_OFFSET, 1, V3, 0x0002, Week),
    number!(NOMINAL_INPUT_POWER_OFFSET, 2, V3, 0x0004, Power),
    number!(POWER_AT_MINIMUM_OFFSET, 2, V3, 0x0008, Power),
    number!(NOMINAL_MIN_AC_VOLTAGE_OFFSET, 2, V3, 0x0010, MainsVoltage),
    number!(NOMINAL_MAX_AC_VOLTAGE_OFFSET, 2, V3, 0x0020, MainsVoltage),
    number!(NOMINAL_LIGHT_OUTPUT_OFFSET, 3, V3, 0x0040, LightOutput),
    number!(CRI_OFFSET, 1, V3, 0x0080, Cri),
    number!(CCT_OFFSET, 2, V3, 0x0100, Cct),
    number!(
        LIGHT_DISTRIBUTION_TYPE_OFFSET,
        1,
        V3,
        0x0200,
        LightDistributionType
    ),
    text!(LUMINAIRE_COLOUR, V3, LuminaireColour),
    text!(LUMINAIRE_IDENTIFICATION, V3, LuminaireIdentification),
    text!(LIGHT_DISTRIBUTION, V4, LightDistribution),
    text!(OEM_NAME, V5, OemName),
    text!(CUSTOMER_STOCKING_NUMBER, V5, CustomerStockingNumber),
    number!(LAMP_CURRENT_OFFSET, 2, V5, 0x0400, LampCurrent),
    text!(FREE_USE, V5, FreeUse),
];

// The table, for whoever reads the contracts: its content is a promise.
pub fn luminaire_fields() -> &'static [LuminaireField]
    ensures { result.now ≡ luminaire_fields }
{
    &LUMINAIRE_FIELDS
}

impl LuminaireField {
    // The field at a place in the table.
    pub fn of_index(index: usize) -> Option<LuminaireField>
        ensures { result ≡ slice_get luminaire_fields index }
    {
        luminaire_fields().get(index).copied()
    }

    // The place of a text in the table. By a match and no search: each text has its place, as the promise says.
    pub fn of_text(which: LuminaireTextField) -> Option<usize>
        ensures { result ≡ place_of which }
    {
        match which {
            LuminaireTextField::LuminaireColour => Some(11),
            LuminaireTextField::LuminaireIdentification => Some(12),
            LuminaireTextField::LightDistribution => Some(13),
            LuminaireTextField::OemName => Some(14),
            LuminaireTextField::CustomerStockingNumber => Some(15),
            LuminaireTextField::FreeUse => Some(17),
        }
    }

    fn is_layout_id(self) -> bool
        ensures { result ≡ read_only self.kind }
    {
        self.kind == FieldKind::LayoutId
    }

    // In sixteen bits, since a field that is not of the table may end past 255.
    pub fn last_offset(self) -> u16
        ensures { result ≡ last_offset_of self }
    {
        (self.offset as u16 + self.len as u16).saturating_sub(1)
    }

    pub fn in_format(self, format: LuminaireFormat) -> bool
        ensures { result ≡ from_format self.since format }
    {
        self.since <= format
    }

    pub fn ends_by(self, last_offset: u8) -> bool
        ensures { result ≡ ends_by self last_offset }
    {
        self.offset as u16 + self.len as u16 <= last_offset as u16 + 1
    }

    pub fn accepts_number(self, value: u64, format: LuminaireFormat) -> bool
        ensures { result ≡ accepts_number self format value }
    {
        match self.kind {
            FieldKind::Number { rule, .. } => {
                fits(value, self.len) && rule.shows_back(value, format)
            }
            FieldKind::LayoutId | FieldKind::Text(_) => false,
        }
    }

    fn is_text(self) -> bool
        ensures { result ≡ is_text_kind self.kind }
    {
        matches!(self.kind, FieldKind::Text(_))
    }

    // Whether the field accepts a text, and why not.
    pub fn check_text(self, text: &[u8]) -> Result<(), Refusal>
        ensures { result ≡ tested (text_checks self text.now) }
    {
        if !self.is_text() {
            return Err(Refusal::FieldNotText);
        }
        if (self.len as usize) < text.len() {
            return Err(Refusal::TextTooLong);
        }
        match first_not_printable(text) {
            Some(index) => Err(Refusal::ByteNotPrintable(index as u8)),
            None => Ok(()),
        }
    }

    // DiiA 251 §9.2.5
    pub fn accepts_text(self, text: &[u8]) -> bool
        ensures { result ≡ accepts_text self text.now }
    {
        self.check_text(text).is_ok()
    }
}

// The number has no more than so many bytes.
fn fits(value: u64, len: u8) -> bool
    ensures { result ≡ fits len value }
{
    8 <= len || value < 1 << (8 * len)
}

fn is_printable(byte: u8) -> bool
    ensures { result ≡ is_printable byte }
{
    matches!(byte, b' '..=b'~')
}

// A loop that never ends early is compiled to test many bytes at once.
fn all_printable(text: &[u8]) -> bool
    ensures { result ≡ printable text.now }
{
    let mut all = true;
    for byte in text.iter() {
        all &= is_printable(*byte);
    }
    all
}

// A text of fewer bytes is searched as fast as it is tested.
const AT_ONCE: usize = 8;

// The index of the first byte that is not printable.
fn first_not_printable(text: &[u8]) -> Option<usize>
    ensures { result ≡ first_not_printable text.now }
{
    if AT_ONCE <= text.len() && all_printable(text) {
        return None;
    }
    text.iter().position(|byte| !is_printable(*byte))
}

// What a header of bank 1 tells, as far as it was read.
#[derive(Clone, Copy)]
pub struct Bank1Layout {
    pub implemented: Option<bool>,
    pub content_format_id: Option<u16>,
    pub last_offset: Option<u8>,
}

impl Bank1Layout {
    // IEC 62386-102 §9.10.4
    pub fn from_header(header: &[u8]) -> Bank1Layout
        ensures { result ≡ from_header header.now }
    {
        Bank1Layout {
            implemented: Some(!header.is_empty()),
            content_format_id: id_in(header),
            last_offset: header.first().copied(),
        }
    }

    // It is known that the bank is not implemented.
    fn is_missing(self) -> bool
        ensures { result ≡ missing self.implemented }
    {
        self.implemented == Some(false)
    }

    fn format(self) -> Option<LuminaireFormat>
        ensures { result ≡ format_in self.content_format_id }
    {
        LuminaireFormat::from_content_format_id(self.content_format_id?)
    }
}

// The id, in a bank that is read from its first byte.
fn id_in(header: &[u8]) -> Option<u16>
    ensures { result ≡ id_in header.now }
{
    let at = CONTENT_FORMAT_ID_OFFSET as usize;
    let id = header.get(at..at + 2)?;
    Some(number_of(id) as u16)
}

// Whether a field may be written in a bank of this layout, and then the bank's format.
pub fn check_writable(
    layout: Bank1Layout,
    field: LuminaireField,
) -> Result<LuminaireFormat, Refusal>
    ensures { result ≡ check_writable layout field }
{
    if field.is_layout_id() {
        return Err(Refusal::FieldReadOnly);
    }
    if layout.is_missing() {
        return Err(Refusal::NotImplemented);
    }
    let last_offset = layout.last_offset.ok_or(Refusal::NotRead)?;
    let format = layout.format().ok_or(Refusal::NotPart251)?;
    if !field.in_format(format) {
        return Err(Refusal::FieldNotInFormat);
    }
    if !field.ends_by(last_offset) {
        return Err(Refusal::TooShort);
    }
    Ok(format)
}
