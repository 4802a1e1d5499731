// What the bytes of a bank say (memory_bank_parser.rs). The first byte given stands at the start offset; a field that is
// not wholly present is absent.
ghost use Rattle.std.specs.Prelude.{◌≡◌, ◌≤◌, ◌<◌, [], ◌∷◌, length, Some, IfSome, option_map, option_and_then, option_copied};
ghost use Rattle.bus.specs.Number.{number};
ghost use Rattle.bus.specs.Value.{FitsWidth, laid_into};
ghost use Rattle.bank.specs.Writable.{format_in};
ghost use Rattle.records.specs.Places.{field_at, byte_at, number_at, reading_of, reading_at, value_read, is_scale, scale_of, scale_at};
ghost use Rattle.records.specs.Since.{dated, since_when, reading_after};
ghost use Rattle.records.specs.Records.{bank0_identity, bank1_profile, bank0_bus_unit, condition, energy_bank, gear_diagnostics, source_diagnostics, luminaire_maintenance};
ghost use Rattle.records.specs.Luminaire.{says209, value_in, number_read, if_from, luminaire};
ghost use Rattle.records.specs.Text.{escape, piece, escaped, copied_whole, room_in, shown_text, text_in, text_region};
ghost use Rattle.records.specs.Steps.{pushed_len, after_push, pushed};

use crate::attributes::{BankReading, LuminaireValue};
use crate::bus_unit::{BUS_UNIT_CONFIGURATION_OFFSET, IMPLEMENTED_PARTS_OFFSET};
use crate::fixed_text::FixedText;
use crate::identity::{
    GTIN_LEN, GTIN_OFFSET, IDENTIFICATION_NUMBER_LEN, IDENTIFICATION_NUMBER_OFFSET, is_mask,
};
use crate::output::hex_digits;
use crate::part251::text_len;
use crate::utf8::sequence_len;
use bank::NumberRule;
use bus::part251::{
    CCT_OFFSET, CONTENT_FORMAT_ID_OFFSET, CRI_OFFSET, CUSTOMER_STOCKING_NUMBER, FREE_USE,
    LAMP_CURRENT_OFFSET, LIGHT_DISTRIBUTION, LIGHT_DISTRIBUTION_TYPE_OFFSET, LUMINAIRE_COLOUR,
    LUMINAIRE_IDENTIFICATION, NOMINAL_INPUT_POWER_OFFSET, NOMINAL_LIGHT_OUTPUT_OFFSET,
    NOMINAL_MAX_AC_VOLTAGE_OFFSET, NOMINAL_MIN_AC_VOLTAGE_OFFSET, OEM_NAME,
    POWER_AT_MINIMUM_OFFSET, WEEK_OFFSET, YEAR_OFFSET,
};
use bus::{BankValue, LuminaireFormat, TextRegion, ValueWidth, classify, number_of, signed_byte};

#[derive(Clone, Copy)]
pub struct ParsedMemoryIdentity {
    pub last_memory_bank: Option<u8>,
    pub gtin: Option<u64>,
    pub firmware_version_major: Option<u8>,
    pub firmware_version_minor: Option<u8>,
    pub identification_number: Option<u64>,
    pub hardware_version_major: Option<u8>,
    pub hardware_version_minor: Option<u8>,
    pub dali_101_version: Option<u8>,
    pub dali_102_version: Option<u8>,
    pub dali_103_version: Option<u8>,
    pub logical_control_device_units: Option<u8>,
    pub logical_control_gear_units: Option<u8>,
    pub logical_control_gear_index: Option<u8>,
}

#[derive(Clone, Copy)]
pub struct ParsedMemoryProfile {
    pub bank1_lock_byte: Option<u8>,
    pub oem_gtin: Option<u64>,
    pub oem_identification_number: Option<u64>,
}

// What was given of a bank: its first byte stands at the start offset. The parsers below take the two as in the Rust.
#[derive(Clone, Copy)]
struct Given<'a> {
    bytes: &'a [u8],
    start_offset: u16,
}

impl<'a> Given<'a> {
    fn of(bytes: &'a [u8], start_offset: u16) -> Given<'a>
        ensures { result ≡ record { bytes = bytes.entry; start_offset = start_offset } }
    {
        Given {
            bytes,
            start_offset,
        }
    }

    // The bytes of a field, if they are all present.
    fn field(self, offset: usize, len: usize) -> Option<&'a [u8]>
        ensures bytes { option_map (λ field. field.now) result ≡ field_at self.entry.start_offset self.entry.bytes.now offset len }
        ensures whole { IfSome result (λ field. length field.now ≡ len) }
    {
        let start = offset.checked_sub(self.start_offset as usize)?;
        self.bytes.get(start..)?.get(..len)
    }

    fn byte(self, offset: usize) -> Option<u8>
        ensures { result ≡ byte_at self.entry.start_offset self.entry.bytes.now offset }
    {
        let field = self.field(offset, 1)?;
        Some(field[0])
    }

    // The number of an identity, unless its bytes are all FF hex: eight at most, as a `u64` has.
    fn number(self, offset: u8, len: usize) -> Option<u64>
        requires { len ≤ 8 }
        ensures { result ≡ number_at self.entry.start_offset self.entry.bytes.now offset len }
    {
        let field = self.field(offset as usize, len)?;
        if is_mask(field) {
            return None;
        }
        Some(number_of(field))
    }

    // The reading, after the earlier one of its place.
    fn reading(
        self,
        offset: u8,
        width: ValueWidth,
        now_ms: u64,
        earlier: Option<&BankReading>,
    ) -> Option<BankReading>
        ensures reading { result ≡ reading_after self.entry.start_offset self.entry.bytes.now now_ms (option_copied earlier.entry) offset width }
        ensures fits { FitsWidth width (value_read result) }
    {
        // By a match: with `?` a record takes a tenth longer.
        match self.field(offset as usize, width.bytes()) {
            Some(field) => {
                let raw = classify(number_of(field), width);
                Some(reading_of(raw, width, now_ms, earlier))
            }
            None => None,
        }
    }

    // Reads a place anew, after the reading that stands there.
    fn read(self, place: &mut Option<BankReading>, offset: u8, width: ValueWidth, now_ms: u64)
        ensures { place.new ≡ reading_after self.entry.start_offset self.entry.bytes.now now_ms place.old offset width }
    {
        match self.field(offset as usize, width.bytes()) {
            Some(field) => {
                let raw = classify(number_of(field), width);
                // Each case is stored by itself: where they join first, a record takes a seventh longer.
                match raw {
                    BankValue::Reading(_) => {
                        let reading = reading_of(raw, width, now_ms, place.as_ref());
                        *place = Some(reading);
                    }
                    BankValue::NotImplemented => {
                        let reading = reading_of(raw, width, now_ms, place.as_ref());
                        *place = Some(reading);
                    }
                    BankValue::TemporarilyUnavailable => {
                        let reading = reading_of(raw, width, now_ms, place.as_ref());
                        *place = Some(reading);
                    }
                }
            }
            None => *place = None,
        }
    }

    // A flag, and behind it its counter, for which there is an offset.
    fn read_condition(self, place: &mut ParsedCondition, flag_offset: u8, now_ms: u64)
        requires { flag_offset < 255 }
        ensures { place.new ≡ condition self.entry.start_offset self.entry.bytes.now now_ms (Some place.old) flag_offset (λ condition. condition) }
    {
        self.read(&mut place.flag, flag_offset, ValueWidth::U8, now_ms);
        self.read(&mut place.counter, flag_offset + 1, ValueWidth::U8, now_ms);
    }

    fn scale(self, offset: u8) -> Option<i8>
        ensures { result ≡ scale_at self.entry.start_offset self.entry.bytes.now offset }
    {
        scale_of(self.byte(offset as usize)?)
    }

    // A text as it is shown.
    fn text<const N: usize>(self, region: TextRegion) -> Option<FixedText<N>>
        ensures { result ≡ text_region self.entry.start_offset self.entry.bytes.now region N }
    {
        let raw = self.field(region.offset as usize, region.len as usize)?;
        Some(escape_into_bounded(&raw[..text_len(raw)]))
    }

    // The id, wherever the given bytes start.
    fn content_format_id(self) -> Option<u16>
        ensures { result ≡ option_map number (field_at self.entry.start_offset self.entry.bytes.now 0x11 2) }
    {
        let field = self.field(CONTENT_FORMAT_ID_OFFSET as usize, 2)?;
        Some(number_of(field) as u16)
    }
}

pub fn byte(bytes: &[u8], start_offset: u16, index: usize) -> Option<u8>
    ensures { result ≡ byte_at start_offset bytes.now index }
{
    Given::of(bytes, start_offset).byte(index)
}

// A reading with nothing to say.
const SILENT: BankReading = BankReading {
    value: None,
    not_implemented: false,
    temporarily_unavailable: false,
    saturated: false,
    tmask_since_ms: None,
};

// What a raw value says, and since when it has been unavailable: by the present time and the earlier reading.
fn reading_of(
    raw: BankValue,
    width: ValueWidth,
    now_ms: u64,
    earlier: Option<&BankReading>,
) -> BankReading
    ensures { result ≡ dated now_ms (option_copied earlier.entry) (reading_of width raw) }
{
    match raw {
        BankValue::Reading(value) => BankReading {
            value: Some(value),
            saturated: value == width.max_valid(),
            ..SILENT
        },
        BankValue::NotImplemented => BankReading {
            not_implemented: true,
            ..SILENT
        },
        BankValue::TemporarilyUnavailable => BankReading {
            temporarily_unavailable: true,
            tmask_since_ms: Some(since_when(now_ms, earlier)),
            ..SILENT
        },
    }
}

// Since when an unavailable reading has been so.
fn since_when(now_ms: u64, earlier: Option<&BankReading>) -> u64
    ensures { result ≡ since_when now_ms (option_copied earlier.entry) }
{
    match earlier {
        Some(was) if was.temporarily_unavailable => was.tmask_since_ms.unwrap_or(now_ms),
        _ => now_ms,
    }
}

pub fn parse_reading(
    bytes: &[u8],
    start_offset: u16,
    offset: u8,
    width: ValueWidth,
    now_ms: u64,
    earlier: Option<&BankReading>,
) -> Option<BankReading>
    ensures reading { result ≡ reading_after start_offset bytes.now now_ms (option_copied earlier.entry) offset width }
    ensures fits { FitsWidth width (value_read result) }
{
    Given::of(bytes, start_offset).reading(offset, width, now_ms, earlier)
}

fn is_scale(signed: i8) -> bool
    ensures { result ≡ is_scale signed }
{
    -6 <= signed && signed <= 6
}

fn scale_of(raw: u8) -> Option<i8>
    ensures { result ≡ scale_of raw }
{
    let signed = signed_byte(raw);
    is_scale(signed).then_some(signed)
}

pub fn parse_scale(bytes: &[u8], start_offset: u16, offset: u8) -> Option<i8>
    ensures { result ≡ scale_at start_offset bytes.now offset }
{
    Given::of(bytes, start_offset).scale(offset)
}

pub fn parse_bank0_identity(bytes: &[u8], start_offset: u16) -> ParsedMemoryIdentity
    ensures { result ≡ bank0_identity start_offset bytes.now }
{
    let given = Given::of(bytes, start_offset);
    ParsedMemoryIdentity {
        last_memory_bank: given.byte(2),
        gtin: given.number(GTIN_OFFSET, GTIN_LEN),
        firmware_version_major: given.byte(9),
        firmware_version_minor: given.byte(10),
        identification_number: given.number(
            IDENTIFICATION_NUMBER_OFFSET,
            IDENTIFICATION_NUMBER_LEN,
        ),
        hardware_version_major: given.byte(19),
        hardware_version_minor: given.byte(20),
        dali_101_version: given.byte(21),
        dali_102_version: given.byte(22),
        dali_103_version: given.byte(23),
        logical_control_device_units: given.byte(24),
        logical_control_gear_units: given.byte(25),
        logical_control_gear_index: given.byte(26),
    }
}

pub fn parse_bank1_profile(bytes: &[u8], start_offset: u16) -> ParsedMemoryProfile
    ensures { result ≡ bank1_profile start_offset bytes.now }
{
    let given = Given::of(bytes, start_offset);
    ParsedMemoryProfile {
        bank1_lock_byte: given.byte(2),
        oem_gtin: given.number(3, 6),
        oem_identification_number: given.number(9, 8),
    }
}

#[derive(Clone, Copy)]
pub struct ParsedBusUnit {
    pub configuration: Option<u8>,
    pub implemented_parts: Option<u8>,
}

pub fn parse_bank0_bus_unit(bytes: &[u8], start_offset: u16) -> ParsedBusUnit
    ensures { result ≡ bank0_bus_unit start_offset bytes.now }
{
    let given = Given::of(bytes, start_offset);
    ParsedBusUnit {
        configuration: given.byte(BUS_UNIT_CONFIGURATION_OFFSET as usize),
        implemented_parts: given.byte(IMPLEMENTED_PARTS_OFFSET as usize),
    }
}

#[derive(Clone, Copy)]
pub struct ParsedLuminaire {
    pub content_format_id: Option<u16>,
    pub year: Option<LuminaireValue>,
    pub week: Option<LuminaireValue>,
    pub nominal_input_power_w: Option<LuminaireValue>,
    pub power_at_minimum_w: Option<LuminaireValue>,
    pub nominal_min_ac_voltage_v: Option<LuminaireValue>,
    pub nominal_max_ac_voltage_v: Option<LuminaireValue>,
    pub nominal_light_output_lm: Option<LuminaireValue>,
    pub cri: Option<LuminaireValue>,
    pub cct_kelvin: Option<LuminaireValue>,
    pub light_distribution_type: Option<LuminaireValue>,
    pub luminaire_colour: Option<FixedText<32>>,
    pub luminaire_identification: Option<FixedText<64>>,
    pub light_distribution: Option<FixedText<32>>,
    pub oem_name: Option<FixedText<32>>,
    pub customer_stocking_number: Option<FixedText<32>>,
    pub lamp_current_ma: Option<LuminaireValue>,
    pub free_use: Option<FixedText<32>>,
}

const NO_LUMINAIRE: ParsedLuminaire = ParsedLuminaire {
    content_format_id: None,
    year: None,
    week: None,
    nominal_input_power_w: None,
    power_at_minimum_w: None,
    nominal_min_ac_voltage_v: None,
    nominal_max_ac_voltage_v: None,
    nominal_light_output_lm: None,
    cri: None,
    cct_kelvin: None,
    light_distribution_type: None,
    luminaire_colour: None,
    luminaire_identification: None,
    light_distribution: None,
    oem_name: None,
    customer_stocking_number: None,
    lamp_current_ma: None,
    free_use: None,
};

// What the record gives for a raw number: a value only where its rule shows it.
fn luminaire_value(raw: u32, rule: NumberRule, format: LuminaireFormat) -> LuminaireValue
    ensures { result ≡ value_in rule format raw }
{
    LuminaireValue {
        raw,
        value: rule.shows_back(raw as u64, format).then_some(raw),
        part209_implemented: says209(raw, rule),
    }
}

// A colour temperature of 65534 says that part 209 is implemented, and no other number says so.
fn says209(raw: u32, rule: NumberRule) -> bool
    ensures { result ≡ says209 rule raw }
{
    rule == NumberRule::Cct && raw == 65_534
}

// What was given of bank 1, and the format in which its fields are read.
#[derive(Clone, Copy)]
struct LuminaireBank<'a> {
    given: Given<'a>,
    format: Option<LuminaireFormat>,
}

impl<'a> LuminaireBank<'a> {
    // For the fields that came with a format: no format, where the bank's is an earlier one.
    fn since(self, first: LuminaireFormat) -> LuminaireBank<'a>
        ensures same { result.given ≡ self.entry.given }
        ensures later { result.format ≡ if_from first self.entry.format }
    {
        LuminaireBank {
            given: self.given,
            format: self.format.filter(|format| first <= *format),
        }
    }

    // What a number of so many bytes says: four at most, as a `u32` has.
    fn number(self, offset: u8, len: usize, rule: NumberRule) -> Option<LuminaireValue>
        requires { len ≤ 4 }
        ensures { result ≡ number_read rule self.entry.format (field_at self.entry.given.start_offset self.entry.given.bytes.now offset len) }
    {
        let format = self.format?;
        let field = self.given.field(offset as usize, len)?;
        Some(luminaire_value(number_of(field) as u32, rule, format))
    }

    fn text<const N: usize>(self, region: TextRegion) -> Option<FixedText<N>>
        ensures { result ≡ text_in N (option_and_then (λ _. field_at self.entry.given.start_offset self.entry.given.bytes.now region.offset region.len) self.entry.format) }
    {
        self.format?;
        self.given.text(region)
    }
}

// The format that a bank has by its id.
fn format_of(content_format_id: Option<u16>) -> Option<LuminaireFormat>
    ensures { result ≡ format_in content_format_id }
{
    content_format_id.and_then(LuminaireFormat::from_content_format_id)
}

pub fn parse_bank1_luminaire(bytes: &[u8], start_offset: u16) -> ParsedLuminaire
    ensures { result ≡ luminaire start_offset bytes.now }
{
    let given = Given::of(bytes, start_offset);
    let content_format_id = given.content_format_id();
    let all = LuminaireBank {
        given,
        format: format_of(content_format_id),
    };
    // Without a format nothing else is looked at.
    let Some(_) = all.format else {
        return ParsedLuminaire {
            content_format_id,
            ..NO_LUMINAIRE
        };
    };
    let from4 = all.since(LuminaireFormat::V4);
    let from5 = all.since(LuminaireFormat::V5);
    let power = NumberRule::Power;
    let voltage = NumberRule::MainsVoltage;
    let output = NumberRule::LightOutput;
    let distribution = NumberRule::LightDistributionType;
    ParsedLuminaire {
        content_format_id,
        year: all.number(YEAR_OFFSET, 1, NumberRule::Year),
        week: all.number(WEEK_OFFSET, 1, NumberRule::Week),
        nominal_input_power_w: all.number(NOMINAL_INPUT_POWER_OFFSET, 2, power),
        power_at_minimum_w: all.number(POWER_AT_MINIMUM_OFFSET, 2, power),
        nominal_min_ac_voltage_v: all.number(NOMINAL_MIN_AC_VOLTAGE_OFFSET, 2, voltage),
        nominal_max_ac_voltage_v: all.number(NOMINAL_MAX_AC_VOLTAGE_OFFSET, 2, voltage),
        nominal_light_output_lm: all.number(NOMINAL_LIGHT_OUTPUT_OFFSET, 3, output),
        cri: all.number(CRI_OFFSET, 1, NumberRule::Cri),
        cct_kelvin: all.number(CCT_OFFSET, 2, NumberRule::Cct),
        light_distribution_type: all.number(LIGHT_DISTRIBUTION_TYPE_OFFSET, 1, distribution),
        luminaire_colour: all.text(LUMINAIRE_COLOUR),
        luminaire_identification: all.text(LUMINAIRE_IDENTIFICATION),
        light_distribution: from4.text(LIGHT_DISTRIBUTION),
        oem_name: from5.text(OEM_NAME),
        customer_stocking_number: from5.text(CUSTOMER_STOCKING_NUMBER),
        lamp_current_ma: from5.number(LAMP_CURRENT_OFFSET, 2, NumberRule::LampCurrent),
        free_use: from5.text(FREE_USE),
    }
}

// A text field as it is shown.
pub fn text_region<const N: usize>(
    bytes: &[u8],
    start_offset: u16,
    region: TextRegion,
) -> Option<FixedText<N>>
    ensures { result ≡ text_region start_offset bytes.now region N }
{
    Given::of(bytes, start_offset).text(region)
}

// A text as it is shown within a limit: what is no well-formed sequence becomes an escape.
pub fn escape_into_bounded<const N: usize>(raw: &[u8]) -> FixedText<N>
    ensures { result ≡ shown_text N raw.now }
{
    let mut bytes = [0; N];
    let Escaped { len, whole } = escape_into(raw, &mut bytes);
    FixedText { len, whole, bytes }
}

// How many bytes were stored of a text, and whether that is all of it.
#[derive(Clone, Copy)]
struct Escaped {
    len: u16,
    whole: bool,
}

// Stores as much of a text as fits and as a length can say. No iterator goes by pieces of one to four bytes.
fn escape_into(raw: &[u8], out: &mut [u8]) -> Escaped
    ensures count { result.len ≡ length (escaped (room_in (length out.old)) raw.now) }
    ensures whole { result.whole ≡ copied_whole (room_in (length out.old)) raw.now }
    ensures stored { out.new ≡ laid_into (escaped (room_in (length out.old)) raw.now) out.old }
{
    let room = usize::min(out.len(), u16::MAX as usize);
    let mut len = 0;
    let mut rest = raw;
    while let Some(pushed) = push_next(rest, &mut out[len..room]) {
        // In this order: with the other, plain letters take a tenth longer.
        rest = &rest[pushed.taken..];
        len += pushed.len;
    }
    Escaped {
        len: len as u16,
        whole: rest.is_empty(),
    }
}

// How many bytes of a text were taken, and how many they became.
#[derive(Clone, Copy)]
struct Pushed {
    taken: usize,
    len: usize,
}

// Stores what stands for the bytes at the start of a text, if there are any and it fits: a well-formed sequence as it is,
// any other byte as its escape.
fn push_next(rest: &[u8], out: &mut [u8]) -> Option<Pushed>
    ensures answer { result ≡ pushed rest.now out.old }
    ensures stored { out.new ≡ after_push (piece rest.now) out.old }
{
    let first = *rest.first()?;
    let Some(taken) = sequence_len(rest) else {
        let len = push(&format_hex_escape(first), out)?;
        return Some(Pushed { taken: 1, len });
    };
    // A letter of one byte by itself: the copy of a slice takes longer than all else.
    let len = if taken == 1 {
        push_byte(first, out)?
    } else {
        push(&rest[..taken], out)?
    };
    Some(Pushed { taken, len })
}

fn push_byte(byte: u8, out: &mut [u8]) -> Option<usize>
    ensures answer { result ≡ pushed_len (byte ∷ []) out.old }
    ensures stored { out.new ≡ after_push (byte ∷ []) out.old }
{
    if out.is_empty() {
        return None;
    }
    out[0] = byte;
    Some(1)
}

// Stores a piece at the start of out, and answers its length; nothing of one that does not fit.
fn push(piece: &[u8], out: &mut [u8]) -> Option<usize>
    ensures answer { result ≡ pushed_len piece.now out.old }
    ensures stored { out.new ≡ after_push piece.now out.old }
{
    if out.len() < piece.len() {
        return None;
    }
    out[..piece.len()].copy_from_slice(piece);
    Some(piece.len())
}

fn format_hex_escape(byte: u8) -> [u8; 4]
    ensures { result ≡ escape byte }
{
    let [high, low] = hex_digits(byte);
    [b'\\', b'x', high, low]
}

#[derive(Clone, Copy, Default)]
pub struct ParsedEnergyBank {
    pub bank_version: Option<u8>,
    pub energy_scale: Option<i8>,
    pub energy: Option<BankReading>,
    pub power_scale: Option<i8>,
    pub power: Option<BankReading>,
}

pub fn parse_energy_bank(
    bytes: &[u8],
    start_offset: u16,
    now_ms: u64,
    earlier: Option<&ParsedEnergyBank>,
) -> ParsedEnergyBank
    ensures { result ≡ energy_bank start_offset bytes.now now_ms (option_copied earlier.entry) }
{
    let given = Given::of(bytes, start_offset);
    ParsedEnergyBank {
        bank_version: given.byte(0x03),
        energy_scale: given.scale(0x04),
        energy: given.reading(
            0x05,
            ValueWidth::U48,
            now_ms,
            earlier.and_then(|was| was.energy.as_ref()),
        ),
        power_scale: given.scale(0x0B),
        power: given.reading(
            0x0C,
            ValueWidth::U32,
            now_ms,
            earlier.and_then(|was| was.power.as_ref()),
        ),
    }
}

#[derive(Clone, Copy, Default)]
pub struct ParsedCondition {
    pub flag: Option<BankReading>,
    pub counter: Option<BankReading>,
}

// DiiA 253 §9.2.16
#[derive(Clone, Copy, Default)]
pub struct ParsedGearDiagnostics {
    pub bank_version: Option<u8>,
    pub operating_time_s: Option<BankReading>,
    pub start_counter: Option<BankReading>,
    pub supply_voltage_decivolt: Option<BankReading>,
    pub supply_frequency_hz: Option<BankReading>,
    pub power_factor_centi: Option<BankReading>,
    pub overall_failure: ParsedCondition,
    pub undervoltage: ParsedCondition,
    pub overvoltage: ParsedCondition,
    pub output_power_limitation: ParsedCondition,
    pub thermal_derating: ParsedCondition,
    pub thermal_shutdown: ParsedCondition,
    pub temperature_offset60: Option<BankReading>,
    pub output_current_percent: Option<BankReading>,
}

// In place and out of line, as the next: in one literal all the members would wait on the stack for the last.
impl ParsedGearDiagnostics {
    #[inline(never)]
    fn read(&mut self, given: Given, now_ms: u64)
        ensures { self.new ≡ gear_diagnostics given.entry.start_offset given.entry.bytes.now now_ms (Some self.old) }
    {
        self.bank_version = given.byte(0x03);
        given.read(&mut self.operating_time_s, 0x04, ValueWidth::U32, now_ms);
        given.read(&mut self.start_counter, 0x08, ValueWidth::U24, now_ms);
        given.read(
            &mut self.supply_voltage_decivolt,
            0x0B,
            ValueWidth::U16,
            now_ms,
        );
        given.read(&mut self.supply_frequency_hz, 0x0D, ValueWidth::U8, now_ms);
        given.read(&mut self.power_factor_centi, 0x0E, ValueWidth::U8, now_ms);
        given.read_condition(&mut self.overall_failure, 0x0F, now_ms);
        given.read_condition(&mut self.undervoltage, 0x11, now_ms);
        given.read_condition(&mut self.overvoltage, 0x13, now_ms);
        given.read_condition(&mut self.output_power_limitation, 0x15, now_ms);
        given.read_condition(&mut self.thermal_derating, 0x17, now_ms);
        given.read_condition(&mut self.thermal_shutdown, 0x19, now_ms);
        given.read(&mut self.temperature_offset60, 0x1B, ValueWidth::U8, now_ms);
        given.read(
            &mut self.output_current_percent,
            0x1C,
            ValueWidth::U8,
            now_ms,
        );
    }
}

pub fn parse_gear_diagnostics(
    bytes: &[u8],
    start_offset: u16,
    now_ms: u64,
    earlier: Option<&ParsedGearDiagnostics>,
) -> ParsedGearDiagnostics
    ensures { result ≡ gear_diagnostics start_offset bytes.now now_ms (option_copied earlier.entry) }
{
    let mut record = earlier.copied().unwrap_or_default();
    record.read(Given::of(bytes, start_offset), now_ms);
    record
}

// DiiA 253 §9.2.17
#[derive(Clone, Copy, Default)]
pub struct ParsedSourceDiagnostics {
    pub bank_version: Option<u8>,
    pub start_counter_resettable: Option<BankReading>,
    pub start_counter: Option<BankReading>,
    pub on_time_resettable_s: Option<BankReading>,
    pub on_time_s: Option<BankReading>,
    pub voltage_decivolt: Option<BankReading>,
    pub current_milliamp: Option<BankReading>,
    pub overall_failure: ParsedCondition,
    pub short_circuit: ParsedCondition,
    pub open_circuit: ParsedCondition,
    pub thermal_derating: ParsedCondition,
    pub thermal_shutdown: ParsedCondition,
    pub temperature_offset60: Option<BankReading>,
}

impl ParsedSourceDiagnostics {
    #[inline(never)]
    fn read(&mut self, given: Given, now_ms: u64)
        ensures { self.new ≡ source_diagnostics given.entry.start_offset given.entry.bytes.now now_ms (Some self.old) }
    {
        self.bank_version = given.byte(0x03);
        given.read(
            &mut self.start_counter_resettable,
            0x04,
            ValueWidth::U24,
            now_ms,
        );
        given.read(&mut self.start_counter, 0x07, ValueWidth::U24, now_ms);
        given.read(
            &mut self.on_time_resettable_s,
            0x0A,
            ValueWidth::U32,
            now_ms,
        );
        given.read(&mut self.on_time_s, 0x0E, ValueWidth::U32, now_ms);
        given.read(&mut self.voltage_decivolt, 0x12, ValueWidth::U16, now_ms);
        given.read(&mut self.current_milliamp, 0x14, ValueWidth::U16, now_ms);
        given.read_condition(&mut self.overall_failure, 0x16, now_ms);
        given.read_condition(&mut self.short_circuit, 0x18, now_ms);
        given.read_condition(&mut self.open_circuit, 0x1A, now_ms);
        given.read_condition(&mut self.thermal_derating, 0x1C, now_ms);
        given.read_condition(&mut self.thermal_shutdown, 0x1E, now_ms);
        given.read(&mut self.temperature_offset60, 0x20, ValueWidth::U8, now_ms);
    }
}

pub fn parse_source_diagnostics(
    bytes: &[u8],
    start_offset: u16,
    now_ms: u64,
    earlier: Option<&ParsedSourceDiagnostics>,
) -> ParsedSourceDiagnostics
    ensures { result ≡ source_diagnostics start_offset bytes.now now_ms (option_copied earlier.entry) }
{
    let mut record = earlier.copied().unwrap_or_default();
    record.read(Given::of(bytes, start_offset), now_ms);
    record
}

#[derive(Clone, Copy, Default)]
pub struct ParsedLuminaireMaintenance {
    pub bank_version: Option<u8>,
    pub rated_life_kilohours: Option<BankReading>,
    pub reference_temperature_offset60: Option<BankReading>,
    pub rated_starts_hundreds: Option<BankReading>,
}

pub fn parse_luminaire_maintenance(
    bytes: &[u8],
    start_offset: u16,
    now_ms: u64,
    earlier: Option<&ParsedLuminaireMaintenance>,
) -> ParsedLuminaireMaintenance
    ensures { result ≡ luminaire_maintenance start_offset bytes.now now_ms (option_copied earlier.entry) }
{
    let given = Given::of(bytes, start_offset);
    ParsedLuminaireMaintenance {
        bank_version: given.byte(0x03),
        rated_life_kilohours: given.reading(
            0x04,
            ValueWidth::U8,
            now_ms,
            earlier.and_then(|was| was.rated_life_kilohours.as_ref()),
        ),
        reference_temperature_offset60: given.reading(
            0x05,
            ValueWidth::U8,
            now_ms,
            earlier.and_then(|was| was.reference_temperature_offset60.as_ref()),
        ),
        rated_starts_hundreds: given.reading(
            0x06,
            ValueWidth::U16,
            now_ms,
            earlier.and_then(|was| was.rated_starts_hundreds.as_ref()),
        ),
    }
}
