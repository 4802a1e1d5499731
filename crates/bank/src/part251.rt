// What the numbers of bank 1 show (part251.rs, IEC 62386-251): the rules stand in luminaire_write.
ghost use Rattle.std.specs.Prelude.{◌≡◌};
ghost use Rattle.bus.specs.declared.part251.LuminaireFormat.TheVariants.{V3};
ghost use Rattle.bank.specs.Rules.{shows, shown};
ghost use Rattle.bank.specs.Readings.{cct_of, type_of};

use crate::luminaire_write::NumberRule;
use bus::LuminaireFormat;

// Whether format 3 shows a raw number. Later formats changed only the rule of the distribution type.
fn is_shown(rule: NumberRule, raw: u64) -> bool
    ensures { result ≡ shows rule V3 raw }
{
    rule.shows_back(raw, LuminaireFormat::V3)
}

// The functions from here on keep the Rust's names.
pub fn year(raw: u8) -> Option<u8>
    ensures { result ≡ shown NumberRule.Year raw }
{
    is_shown(NumberRule::Year, raw.into()).then_some(raw)
}

pub fn week(raw: u8) -> Option<u8>
    ensures { result ≡ shown NumberRule.Week raw }
{
    is_shown(NumberRule::Week, raw.into()).then_some(raw)
}

pub fn power_w(raw: u16) -> Option<u16>
    ensures { result ≡ shown NumberRule.Power raw }
{
    is_shown(NumberRule::Power, raw.into()).then_some(raw)
}

pub fn mains_voltage_v(raw: u16) -> Option<u16>
    ensures { result ≡ shown NumberRule.MainsVoltage raw }
{
    is_shown(NumberRule::MainsVoltage, raw.into()).then_some(raw)
}

pub fn light_output_lm(raw: u32) -> Option<u32>
    ensures { result ≡ shown NumberRule.LightOutput raw }
{
    is_shown(NumberRule::LightOutput, raw.into()).then_some(raw)
}

pub fn cri(raw: u8) -> Option<u8>
    ensures { result ≡ shown NumberRule.Cri raw }
{
    is_shown(NumberRule::Cri, raw.into()).then_some(raw)
}

#[derive(Clone, Copy)]
pub enum CctReading {
    Kelvin(u16),
    Part209Implemented,
    Unknown,
}

pub fn cct(raw: u16) -> CctReading
    ensures { result ≡ cct_of raw }
{
    if is_shown(NumberRule::Cct, raw.into()) {
        CctReading::Kelvin(raw)
    } else if raw == u16::MAX - 1 {
        CctReading::Part209Implemented
    } else {
        CctReading::Unknown
    }
}

#[derive(Clone, Copy)]
pub enum LightDistributionType {
    NotSpecified,
    Type(u8),
    EmergencyLuminaire,
    Other,
    Reserved(u8),
    Unknown,
}

pub fn light_distribution_type(raw: u8, format: LuminaireFormat) -> LightDistributionType
    ensures { result ≡ type_of format raw }
{
    if NumberRule::LightDistributionType.shows_back(raw.into(), format) {
        match raw {
            0 => LightDistributionType::NotSpecified,
            253 => LightDistributionType::EmergencyLuminaire,
            254 => LightDistributionType::Other,
            _ => LightDistributionType::Type(raw),
        }
    } else if raw == 0xFF {
        LightDistributionType::Unknown
    } else {
        LightDistributionType::Reserved(raw)
    }
}

pub fn lamp_current_ma(raw: u16) -> Option<u16>
    ensures { result ≡ shown NumberRule.LampCurrent raw }
{
    is_shown(NumberRule::LampCurrent, raw.into()).then_some(raw)
}
