// Who a device is (identity.rs, IEC 62386-102 §9.10.6, Table 9).
ghost use Rattle.std.specs.Prelude.{◌≡◌, ◌+◌, ◌-◌, ◌≤◌, length, take, drop};
ghost use Rattle.records.specs.Places.{all_ff};
ghost use Rattle.records.specs.Identity.{of_window, of_bank0, known_of};

use bus::number_of;

pub const IDENTITY_BANK: u8 = 0;

pub const GTIN_OFFSET: u8 = 0x03;

pub const GTIN_LEN: usize = 6;

pub const IDENTIFICATION_NUMBER_OFFSET: u8 = 0x0B;

pub const IDENTIFICATION_NUMBER_LEN: usize = 8;

pub const LOGICAL_GEAR_INDEX_OFFSET: u8 = 0x1A;

pub const IDENTITY_WINDOW_LEN: u16 = 24;

pub const MASK: u8 = 0xFF;

#[derive(Clone, Copy)]
pub struct DeviceIdentity {
    pub gtin: u64,
    pub identification_number: u64,
    pub logical_gear_index: u8,
}

#[derive(Clone, Copy)]
pub enum IdentityRead {
    Unread,
    Unprovable,
    Known(DeviceIdentity),
}

// Why no identity is known.
#[derive(Clone, Copy)]
pub enum IdentityCause {
    Unknown,
    Unprovable,
}

impl IdentityRead {
    // From the bytes of bank 0, its first on.
    pub fn of_bank0(bank: &[u8]) -> Self
        ensures { result ≡ of_bank0 bank.now }
    {
        let Some(last) = bank.first() else {
            return IdentityRead::Unread;
        };
        if *last < LOGICAL_GEAR_INDEX_OFFSET {
            return IdentityRead::Unprovable;
        }
        let from = GTIN_OFFSET as usize;
        match bank.get(from..from + IDENTITY_WINDOW_LEN as usize) {
            Some(window) => IdentityRead::of_window(window),
            None => IdentityRead::Unread,
        }
    }

    // From the bytes that hold an identity, 03 to 1A hex of bank 0.
    pub fn of_window(window: &[u8]) -> Self
        ensures { result ≡ of_window window.now }
    {
        if window.len() != IDENTITY_WINDOW_LEN as usize {
            return IdentityRead::Unread;
        }
        let gtin = within(window, GTIN_OFFSET, GTIN_LEN);
        let number = within(
            window,
            IDENTIFICATION_NUMBER_OFFSET,
            IDENTIFICATION_NUMBER_LEN,
        );
        let index = within(window, LOGICAL_GEAR_INDEX_OFFSET, 1);
        if is_mask(gtin) || is_mask(number) || is_mask(index) {
            return IdentityRead::Unprovable;
        }
        IdentityRead::Known(DeviceIdentity {
            gtin: number_of(gtin),
            identification_number: number_of(number),
            logical_gear_index: index[0],
        })
    }

    pub fn known(self) -> Result<DeviceIdentity, IdentityCause>
        ensures { result ≡ known_of self }
    {
        match self {
            IdentityRead::Known(identity) => Ok(identity),
            IdentityRead::Unread => Err(IdentityCause::Unknown),
            IdentityRead::Unprovable => Err(IdentityCause::Unprovable),
        }
    }
}

// So many bytes from an offset of bank 0 on, all of them in the window, whose length its caller has tested.
fn within(window: &[u8], offset: u8, len: usize) -> &[u8]
    requires { (3 ≤ offset) × (offset - 3 + len ≤ length window.now) }
    ensures { result.now ≡ take len (drop (offset - 3) window.now) }
{
    let start = (offset - GTIN_OFFSET) as usize;
    let end = start + len;
    &window[start..end]
}

pub(crate) fn is_mask(bytes: &[u8]) -> bool
    ensures { result ≡ all_ff bytes.now }
{
    bytes.iter().all(|byte| *byte == MASK)
}
