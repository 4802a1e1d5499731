// What a bus unit is made of (bus_unit.rs, DiiA 098bp §7.2.7).
ghost use Rattle.std.specs.Prelude.{◌≡◌, length};
ghost use Rattle.bus.specs.Value.{laid_into};
ghost use Rattle.records.specs.BusUnit.{letter_of, emergency_letter, from_byte, raw_of, in_range, parts_of};

use crate::output::put;

pub const BUS_UNIT_CONFIGURATION_OFFSET: u8 = 0x1B;

pub const IMPLEMENTED_PARTS_OFFSET: u8 = 0x1C;

pub const BANK0_EXTENDED_LAST_OFFSET: u8 = IMPLEMENTED_PARTS_OFFSET;

const FIRST_IMPLEMENTED_PART: u16 = 150;

const IMPLEMENTED_PART_BITS: u8 = 5;

#[derive(Clone, Copy)]
pub enum BusUnitConfiguration {
    Defined(u8),
    EmergencyType(EmergencyGearType),
    Reserved(u8),
    ManufacturerSpecific(u8),
}

#[derive(Clone, Copy)]
pub enum EmergencyGearType {
    A,
    B,
    C,
    D,
}

impl EmergencyGearType {
    pub fn letter(self) -> u8
        ensures { result ≡ letter_of self }
    {
        match self {
            EmergencyGearType::A => b'A',
            EmergencyGearType::B => b'B',
            EmergencyGearType::C => b'C',
            EmergencyGearType::D => b'D',
        }
    }
}

impl BusUnitConfiguration {
    pub fn emergency_letter(self) -> Option<u8>
        ensures { result ≡ emergency_letter self }
    {
        match self {
            BusUnitConfiguration::EmergencyType(gear) => Some(gear.letter()),
            _ => None,
        }
    }

    // DiiA 098bp Table 5. Every byte has a case, and this and `raw` keep the Rust's names.
    pub fn from_byte(raw: u8) -> Self
        ensures { result ≡ from_byte raw }
    {
        match raw {
            0..=8 => BusUnitConfiguration::Defined(raw),
            9 => BusUnitConfiguration::EmergencyType(EmergencyGearType::A),
            10 => BusUnitConfiguration::EmergencyType(EmergencyGearType::B),
            11 => BusUnitConfiguration::EmergencyType(EmergencyGearType::C),
            12 => BusUnitConfiguration::EmergencyType(EmergencyGearType::D),
            13..=191 => BusUnitConfiguration::Reserved(raw),
            _ => BusUnitConfiguration::ManufacturerSpecific(raw),
        }
    }

    pub fn raw(self) -> u8
        ensures { result ≡ raw_of self }
    {
        match self {
            BusUnitConfiguration::Defined(raw)
            | BusUnitConfiguration::Reserved(raw)
            | BusUnitConfiguration::ManufacturerSpecific(raw) => raw,
            BusUnitConfiguration::EmergencyType(gear) => match gear {
                EmergencyGearType::A => 9,
                EmergencyGearType::B => 10,
                EmergencyGearType::C => 11,
                EmergencyGearType::D => 12,
            },
        }
    }
}

#[derive(Clone, Copy)]
// `from_byte` and `raw` keep the Rust's names.
pub struct ImplementedParts(u8);

impl ImplementedParts {
    pub fn from_byte(raw: u8) -> Self
        ensures { result.0 ≡ raw }
    {
        ImplementedParts(raw)
    }

    pub fn raw(self) -> u8
        ensures { result ≡ self.0 }
    {
        self.0
    }

    pub fn in_range(self) -> bool
        ensures { result ≡ in_range self.0 }
    {
        self.0 >> IMPLEMENTED_PART_BITS == 0
    }

    // Stores the parts from the start of out on, as many as it holds, and answers how many there are.
    pub fn parts(self, out: &mut [u16]) -> usize
        ensures count { result ≡ length (parts_of self.0) }
        ensures stored { out.new ≡ laid_into (parts_of self.0) out.old }
    {
        if !self.in_range() {
            return 0;
        }
        // Counted by hand: a part that finds no room counts too, and an iterator over out would end with out.
        let mut count = 0;
        for bit in 0..IMPLEMENTED_PART_BITS {
            if (self.0 >> bit) % 2 == 1 {
                put(out, count, FIRST_IMPLEMENTED_PART + bit as u16);
                count += 1;
            }
        }
        count
    }
}
