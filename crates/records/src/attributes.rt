// The two reading records (attributes.rs).

// What a place of banks 202 to 207 says. The members are the Rust's, and 01 names each.
#[derive(Clone, Copy)]
pub struct BankReading {
    pub value: Option<u64>,
    pub not_implemented: bool,
    pub temporarily_unavailable: bool,
    pub saturated: bool,
    pub tmask_since_ms: Option<u64>,
}

// What a number of bank 1 says. The members are the Rust's, and 01 names each.
#[derive(Clone, Copy)]
pub struct LuminaireValue {
    pub raw: u32,
    pub value: Option<u32>,
    pub part209_implemented: bool,
}
