// The functions of bus_unit.rs.
use crate::output::{Output, Put};
use crate::request::{Request, Take};
use records::bus_unit::{
    BANK0_EXTENDED_LAST_OFFSET, BUS_UNIT_CONFIGURATION_OFFSET, IMPLEMENTED_PARTS_OFFSET,
};
use records::{BusUnitConfiguration, EmergencyGearType, ImplementedParts};

// A request lends no more numbers: there are at most 5 parts. One that lends more has no answer, which shows as a
// difference.
const LENT_LEN: usize = 8;

// By a match, as in main.rt; and so is an enum taken, as in request.rt.
pub(crate) fn answer(number: u8, request: &mut Request, out: &mut Output) {
    match number {
        0x60 => out.put(BusUnitConfiguration::from_byte(request.take())),
        0x61 => out.put(BusUnitConfiguration::take(request).raw()),
        0x62 => out.put(BusUnitConfiguration::take(request).emergency_letter()),
        0x63 => out.put(EmergencyGearType::take(request).letter()),
        0x64 => out.put(ImplementedParts::take(request).raw()),
        0x65 => out.put(ImplementedParts::take(request).in_range()),
        0x66 => parts(request, out),
        0x67 => constants(out),
        _ => {}
    }
}

// Puts the output as the call left it. The numbers that the request lacks are lent as 0.
fn parts(request: &mut Request, out: &mut Output) {
    let parts = ImplementedParts::take(request);
    let len = u16::take(request);
    let mut space = [0u16; LENT_LEN];
    let Some(lent) = space.get_mut(..len as usize) else {
        return;
    };
    for number in lent.iter_mut() {
        *number = request.take();
    }
    out.put(parts.parts(lent));
    out.put(&*lent);
}

fn constants(out: &mut Output) {
    out.put(BUS_UNIT_CONFIGURATION_OFFSET);
    out.put(IMPLEMENTED_PARTS_OFFSET);
    out.put(BANK0_EXTENDED_LAST_OFFSET);
}

impl Take<'_> for EmergencyGearType {
    fn take(request: &mut Request) -> Self {
        match u8::take(request) {
            0 => EmergencyGearType::A,
            1 => EmergencyGearType::B,
            2 => EmergencyGearType::C,
            _ => EmergencyGearType::D,
        }
    }
}

impl Put for EmergencyGearType {
    fn put(self, out: &mut Output) {
        out.put(self as u8);
    }
}

impl Take<'_> for BusUnitConfiguration {
    fn take(request: &mut Request) -> Self {
        match u8::take(request) {
            0 => BusUnitConfiguration::Defined(request.take()),
            1 => BusUnitConfiguration::EmergencyType(request.take()),
            2 => BusUnitConfiguration::Reserved(request.take()),
            _ => BusUnitConfiguration::ManufacturerSpecific(request.take()),
        }
    }
}

impl Put for BusUnitConfiguration {
    fn put(self, out: &mut Output) {
        match self {
            BusUnitConfiguration::Defined(raw) => out.variant(0, raw),
            BusUnitConfiguration::EmergencyType(gear) => out.variant(1, gear),
            BusUnitConfiguration::Reserved(raw) => out.variant(2, raw),
            BusUnitConfiguration::ManufacturerSpecific(raw) => out.variant(3, raw),
        }
    }
}

impl Take<'_> for ImplementedParts {
    fn take(request: &mut Request) -> Self {
        ImplementedParts::from_byte(request.take())
    }
}
