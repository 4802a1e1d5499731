// The functions of memory_bank_parser.rs.
use crate::output::{Output, Put};
use crate::request::{Request, Take};
use records::memory_bank_parser::{
    parse_energy_bank, parse_gear_diagnostics, parse_luminaire_maintenance,
    parse_source_diagnostics,
};
use records::{
    BankReading, FixedText, LuminaireValue, ParsedBusUnit, ParsedCondition, ParsedEnergyBank,
    ParsedGearDiagnostics, ParsedLuminaire, ParsedLuminaireMaintenance, ParsedMemoryIdentity,
    ParsedMemoryProfile, ParsedSourceDiagnostics, fixed_text, memory_bank_parser,
};

// By a match, as in main.rt.
pub(crate) fn answer(number: u8, request: &mut Request, out: &mut Output) {
    match number {
        0x70 => byte(request, out),
        0x71 => parse_reading(request, out),
        0x72 => parse_scale(request, out),
        0x73..=0x75 | 0x7C => of_bank(number, request, out),
        0x76..=0x79 => of_bank_after(number, request, out),
        0x7A => text_region(request, out),
        0x7B => escape_into_bounded(request, out),
        _ => {}
    }
}

fn byte(request: &mut Request, out: &mut Output) {
    let start = request.take();
    let index = request.take();
    out.put(memory_bank_parser::byte(request.take(), start, index));
}

fn parse_reading(request: &mut Request, out: &mut Output) {
    let start = request.take();
    let offset = request.take();
    let width = request.take();
    let now_ms = request.take();
    let earlier: Option<BankReading> = request.take();
    let bytes = request.take();
    let earlier = earlier.as_ref();
    out.put(memory_bank_parser::parse_reading(bytes, start, offset, width, now_ms, earlier));
}

fn parse_scale(request: &mut Request, out: &mut Output) {
    let start = request.take();
    let offset = request.take();
    out.put(memory_bank_parser::parse_scale(request.take(), start, offset));
}

// The functions that make a record of the bytes alone, by a match, as in main.rt.
fn of_bank(number: u8, request: &mut Request, out: &mut Output) {
    let start = request.take();
    let bytes = request.take();
    match number {
        0x73 => out.put(memory_bank_parser::parse_bank0_identity(bytes, start)),
        0x74 => out.put(memory_bank_parser::parse_bank1_profile(bytes, start)),
        0x75 => out.put(memory_bank_parser::parse_bank0_bus_unit(bytes, start)),
        _ => out.put(memory_bank_parser::parse_bank1_luminaire(bytes, start)),
    }
}

// Those that make one of the bytes, the present time and the earlier record, by a match too.
fn of_bank_after(number: u8, request: &mut Request, out: &mut Output) {
    let start = request.take();
    let now_ms = request.take();
    match number {
        0x76 => {
            let earlier: Option<ParsedEnergyBank> = request.take();
            out.put(parse_energy_bank(request.take(), start, now_ms, earlier.as_ref()));
        }
        0x77 => {
            let earlier: Option<ParsedGearDiagnostics> = request.take();
            out.put(parse_gear_diagnostics(request.take(), start, now_ms, earlier.as_ref()));
        }
        0x78 => {
            let earlier: Option<ParsedSourceDiagnostics> = request.take();
            out.put(parse_source_diagnostics(request.take(), start, now_ms, earlier.as_ref()));
        }
        _ => {
            let earlier: Option<ParsedLuminaireMaintenance> = request.take();
            out.put(parse_luminaire_maintenance(request.take(), start, now_ms, earlier.as_ref()));
        }
    }
}

fn text_region(request: &mut Request, out: &mut Output) {
    let start = request.take();
    let region = request.take();
    if bool::take(request) {
        put_text::<64>(
            memory_bank_parser::text_region(request.take(), start, region),
            out,
        );
    } else {
        put_text::<32>(
            memory_bank_parser::text_region(request.take(), start, region),
            out,
        );
    }
}

fn escape_into_bounded(request: &mut Request, out: &mut Output) {
    if bool::take(request) {
        put_text::<64>(
            Some(memory_bank_parser::escape_into_bounded(request.take())),
            out,
        );
    } else {
        put_text::<32>(
            Some(memory_bank_parser::escape_into_bounded(request.take())),
            out,
        );
    }
}

// An answer has so many bytes of a text, whatever its limit.
const TEXT_LEN: usize = 64;

// Whether there is a text, whether it is whole, whether its limit is 64, its length, and its bytes, filled up with 00.
fn put_text<const N: usize>(shown: Option<FixedText<N>>, out: &mut Output) {
    out.put(shown.is_some());
    out.put(fixed_text::is_whole(&shown));
    out.put(N == TEXT_LEN);
    let text = shown.unwrap_or(FixedText {
        len: 0,
        whole: false,
        bytes: [0; N],
    });
    out.put(text.len as usize);
    out.put(text.bytes);
    for _ in N..TEXT_LEN {
        out.put(0u8);
    }
}

impl Take<'_> for BankReading {
    fn take(request: &mut Request) -> Self {
        BankReading {
            value: request.take(),
            not_implemented: request.take(),
            temporarily_unavailable: request.take(),
            saturated: request.take(),
            tmask_since_ms: request.take(),
        }
    }
}

impl Put for BankReading {
    fn put(self, out: &mut Output) {
        out.put(self.value);
        out.put(self.not_implemented);
        out.put(self.temporarily_unavailable);
        out.put(self.saturated);
        out.put(self.tmask_since_ms);
    }
}

impl Put for LuminaireValue {
    fn put(self, out: &mut Output) {
        out.put(self.raw);
        out.put(self.value);
        out.put(self.part209_implemented);
    }
}

impl Put for ParsedMemoryIdentity {
    fn put(self, out: &mut Output) {
        out.put(self.last_memory_bank);
        out.put(self.gtin);
        out.put(self.firmware_version_major);
        out.put(self.firmware_version_minor);
        out.put(self.identification_number);
        out.put(self.hardware_version_major);
        out.put(self.hardware_version_minor);
        out.put(self.dali_101_version);
        out.put(self.dali_102_version);
        out.put(self.dali_103_version);
        out.put(self.logical_control_device_units);
        out.put(self.logical_control_gear_units);
        out.put(self.logical_control_gear_index);
    }
}

impl Put for ParsedMemoryProfile {
    fn put(self, out: &mut Output) {
        out.put(self.bank1_lock_byte);
        out.put(self.oem_gtin);
        out.put(self.oem_identification_number);
    }
}

impl Put for ParsedBusUnit {
    fn put(self, out: &mut Output) {
        out.put(self.configuration);
        out.put(self.implemented_parts);
    }
}

impl Take<'_> for ParsedEnergyBank {
    fn take(request: &mut Request) -> Self {
        ParsedEnergyBank {
            bank_version: request.take(),
            energy_scale: request.take(),
            energy: request.take(),
            power_scale: request.take(),
            power: request.take(),
        }
    }
}

impl Put for ParsedEnergyBank {
    fn put(self, out: &mut Output) {
        out.put(self.bank_version);
        out.put(self.energy_scale);
        out.put(self.energy);
        out.put(self.power_scale);
        out.put(self.power);
    }
}

impl Take<'_> for ParsedCondition {
    fn take(request: &mut Request) -> Self {
        ParsedCondition {
            flag: request.take(),
            counter: request.take(),
        }
    }
}

impl Put for ParsedCondition {
    fn put(self, out: &mut Output) {
        out.put(self.flag);
        out.put(self.counter);
    }
}

impl Take<'_> for ParsedGearDiagnostics {
    fn take(request: &mut Request) -> Self {
        ParsedGearDiagnostics {
            bank_version: request.take(),
            operating_time_s: request.take(),
            start_counter: request.take(),
            supply_voltage_decivolt: request.take(),
            supply_frequency_hz: request.take(),
            power_factor_centi: request.take(),
            overall_failure: request.take(),
            undervoltage: request.take(),
            overvoltage: request.take(),
            output_power_limitation: request.take(),
            thermal_derating: request.take(),
            thermal_shutdown: request.take(),
            temperature_offset60: request.take(),
            output_current_percent: request.take(),
        }
    }
}

impl Put for ParsedGearDiagnostics {
    fn put(self, out: &mut Output) {
        out.put(self.bank_version);
        out.put(self.operating_time_s);
        out.put(self.start_counter);
        out.put(self.supply_voltage_decivolt);
        out.put(self.supply_frequency_hz);
        out.put(self.power_factor_centi);
        out.put(self.overall_failure);
        out.put(self.undervoltage);
        out.put(self.overvoltage);
        out.put(self.output_power_limitation);
        out.put(self.thermal_derating);
        out.put(self.thermal_shutdown);
        out.put(self.temperature_offset60);
        out.put(self.output_current_percent);
    }
}

impl Take<'_> for ParsedSourceDiagnostics {
    fn take(request: &mut Request) -> Self {
        ParsedSourceDiagnostics {
            bank_version: request.take(),
            start_counter_resettable: request.take(),
            start_counter: request.take(),
            on_time_resettable_s: request.take(),
            on_time_s: request.take(),
            voltage_decivolt: request.take(),
            current_milliamp: request.take(),
            overall_failure: request.take(),
            short_circuit: request.take(),
            open_circuit: request.take(),
            thermal_derating: request.take(),
            thermal_shutdown: request.take(),
            temperature_offset60: request.take(),
        }
    }
}

impl Put for ParsedSourceDiagnostics {
    fn put(self, out: &mut Output) {
        out.put(self.bank_version);
        out.put(self.start_counter_resettable);
        out.put(self.start_counter);
        out.put(self.on_time_resettable_s);
        out.put(self.on_time_s);
        out.put(self.voltage_decivolt);
        out.put(self.current_milliamp);
        out.put(self.overall_failure);
        out.put(self.short_circuit);
        out.put(self.open_circuit);
        out.put(self.thermal_derating);
        out.put(self.thermal_shutdown);
        out.put(self.temperature_offset60);
    }
}

impl Take<'_> for ParsedLuminaireMaintenance {
    fn take(request: &mut Request) -> Self {
        ParsedLuminaireMaintenance {
            bank_version: request.take(),
            rated_life_kilohours: request.take(),
            reference_temperature_offset60: request.take(),
            rated_starts_hundreds: request.take(),
        }
    }
}

impl Put for ParsedLuminaireMaintenance {
    fn put(self, out: &mut Output) {
        out.put(self.bank_version);
        out.put(self.rated_life_kilohours);
        out.put(self.reference_temperature_offset60);
        out.put(self.rated_starts_hundreds);
    }
}

impl Put for ParsedLuminaire {
    fn put(self, out: &mut Output) {
        out.put(self.content_format_id);
        out.put(self.year);
        out.put(self.week);
        out.put(self.nominal_input_power_w);
        out.put(self.power_at_minimum_w);
        out.put(self.nominal_min_ac_voltage_v);
        out.put(self.nominal_max_ac_voltage_v);
        out.put(self.nominal_light_output_lm);
        out.put(self.cri);
        out.put(self.cct_kelvin);
        out.put(self.light_distribution_type);
        put_text(self.luminaire_colour, out);
        put_text(self.luminaire_identification, out);
        put_text(self.light_distribution, out);
        put_text(self.oem_name, out);
        put_text(self.customer_stocking_number, out);
        out.put(self.lamp_current_ma);
        put_text(self.free_use, out);
    }
}
