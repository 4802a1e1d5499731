// The bank layer: what a field of bank 1 shows and accepts (part251.rs, luminaire_write.rs), and how a bank
// is read out in chunks of whole fields (layout.rs, and read_out, which the Rust lacks).
#![tactic(auto)]

pub mod call_list;
pub mod layout;
pub mod luminaire_write;
pub mod part251;
pub mod read_out;
pub mod refusal;

pub use layout::{ChunkMode, chunk_len};
pub use luminaire_write::{
    Bank1Layout, FieldKind, LuminaireField, LuminaireTextField, NumberRule, check_writable,
    luminaire_fields,
};
pub use part251::{CctReading, LightDistributionType};
pub use read_out::{ReadOut, Wanted};
pub use refusal::Refusal;
