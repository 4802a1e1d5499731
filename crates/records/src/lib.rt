// The record layer: what the bytes of a bank say (memory_bank_parser.rs, attributes.rs) and its texts (part251.rs), who a
// device is (identity.rs), what a bus unit is made of (bus_unit.rs), and the plan of a write to bank 1
// (luminaire_write.rs).
#![tactic(auto)]

pub mod attributes;
pub mod bus_unit;
pub mod cut_plan;
pub mod fixed_list;
pub mod fixed_text;
pub mod identity;
pub mod luminaire_write;
pub mod memory_bank_parser;
pub mod output;
pub mod part251;
mod utf8;

pub use attributes::{BankReading, LuminaireValue};
pub use bus_unit::{BusUnitConfiguration, EmergencyGearType, ImplementedParts};
pub use fixed_text::FixedText;
pub use identity::{DeviceIdentity, IdentityCause, IdentityRead};
pub use luminaire_write::{
    FieldWrite, LuminaireNumbers, MOST_STORES, Plan, StagePart, WriteStage, planned_writes,
};
pub use memory_bank_parser::{
    ParsedBusUnit, ParsedCondition, ParsedEnergyBank, ParsedGearDiagnostics, ParsedLuminaire,
    ParsedLuminaireMaintenance, ParsedMemoryIdentity, ParsedMemoryProfile, ParsedSourceDiagnostics,
};
