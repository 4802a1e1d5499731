// The functions of part251.rs.
use crate::output::{Output, Put};
use crate::request::{Request, Take};
use bank::{CctReading, LightDistributionType};
use bus::{LuminaireFormat, TextRegion};

// By a match, as in main.rt; and so is an enum taken, as in request.rt.
pub(crate) fn answer(number: u8, request: &mut Request, out: &mut Output) {
    match number {
        0x20 => out.put(LuminaireFormat::from_content_format_id(request.take())),
        0x21 => out.put(LuminaireFormat::take(request).content_format_id()),
        0x22 => out.put(LuminaireFormat::take(request).min_last_offset()),
        0x23 => out.put(LuminaireFormat::take(request).has_light_distribution()),
        0x24 => out.put(LuminaireFormat::take(request).has_extended_block()),
        0x25 => constants(out),
        0x26 => out.put(bank::part251::year(request.take())),
        0x27 => out.put(bank::part251::week(request.take())),
        0x28 => out.put(bank::part251::power_w(request.take())),
        0x29 => out.put(bank::part251::mains_voltage_v(request.take())),
        0x2A => out.put(bank::part251::light_output_lm(request.take())),
        0x2B => out.put(bank::part251::cri(request.take())),
        0x2C => out.put(bank::part251::cct(request.take())),
        0x2D => out.put(bank::part251::light_distribution_type(request.take(), request.take())),
        0x2E => out.put(bank::part251::lamp_current_ma(request.take())),
        0x2F => text_bytes(request, out),
        _ => {}
    }
}

// A text's bytes, behind whether its region is present.
fn text_bytes(request: &mut Request, out: &mut Output) {
    let region = request.take();
    let bank = request.take();
    out.put(records::part251::text_present(bank, region));
    out.put(records::part251::text_bytes(bank, region));
}

fn constants(out: &mut Output) {
    out.put([
        bus::part251::BANK_LUMINAIRE_INFO,
        bus::part251::CONTENT_FORMAT_ID_OFFSET,
        bus::part251::BANK1_BASE_LAST_OFFSET,
        bus::part251::BANK1_FORMAT_GATE_LAST_OFFSET,
        bus::part251::YEAR_OFFSET,
        bus::part251::WEEK_OFFSET,
        bus::part251::NOMINAL_INPUT_POWER_OFFSET,
        bus::part251::POWER_AT_MINIMUM_OFFSET,
        bus::part251::NOMINAL_MIN_AC_VOLTAGE_OFFSET,
        bus::part251::NOMINAL_MAX_AC_VOLTAGE_OFFSET,
        bus::part251::NOMINAL_LIGHT_OUTPUT_OFFSET,
        bus::part251::CRI_OFFSET,
        bus::part251::CCT_OFFSET,
        bus::part251::LIGHT_DISTRIBUTION_TYPE_OFFSET,
        bus::part251::LUMINAIRE_COLOUR.offset,
        bus::part251::LUMINAIRE_COLOUR.len,
        bus::part251::LUMINAIRE_IDENTIFICATION.offset,
        bus::part251::LUMINAIRE_IDENTIFICATION.len,
        bus::part251::LIGHT_DISTRIBUTION.offset,
        bus::part251::LIGHT_DISTRIBUTION.len,
        bus::part251::OEM_NAME.offset,
        bus::part251::OEM_NAME.len,
        bus::part251::CUSTOMER_STOCKING_NUMBER.offset,
        bus::part251::CUSTOMER_STOCKING_NUMBER.len,
        bus::part251::FREE_USE.offset,
        bus::part251::FREE_USE.len,
        bus::part251::LAMP_CURRENT_OFFSET,
    ]);
}

impl Take<'_> for LuminaireFormat {
    fn take(request: &mut Request) -> Self {
        match u8::take(request) {
            0 => LuminaireFormat::V3,
            1 => LuminaireFormat::V4,
            _ => LuminaireFormat::V5,
        }
    }
}

impl Put for LuminaireFormat {
    fn put(self, out: &mut Output) {
        out.put(self as u8);
    }
}

impl Take<'_> for TextRegion {
    fn take(request: &mut Request) -> Self {
        TextRegion {
            offset: request.take(),
            len: request.take(),
        }
    }
}

impl Put for CctReading {
    fn put(self, out: &mut Output) {
        match self {
            CctReading::Kelvin(kelvin) => out.variant(0, kelvin),
            CctReading::Part209Implemented => out.variant(1, ()),
            CctReading::Unknown => out.variant(2, ()),
        }
    }
}

impl Put for LightDistributionType {
    fn put(self, out: &mut Output) {
        match self {
            LightDistributionType::NotSpecified => out.variant(0, ()),
            LightDistributionType::Type(number) => out.variant(1, number),
            LightDistributionType::EmergencyLuminaire => out.variant(2, ()),
            LightDistributionType::Other => out.variant(3, ()),
            LightDistributionType::Reserved(number) => out.variant(4, number),
            LightDistributionType::Unknown => out.variant(5, ()),
        }
    }
}
