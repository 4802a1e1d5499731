// The functions of identity.rs.
use crate::output::{Output, Put};
use crate::request::{Request, Take};
use records::identity::{
    GTIN_LEN, GTIN_OFFSET, IDENTIFICATION_NUMBER_LEN, IDENTIFICATION_NUMBER_OFFSET, IDENTITY_BANK,
    IDENTITY_WINDOW_LEN, LOGICAL_GEAR_INDEX_OFFSET, MASK,
};
use records::{DeviceIdentity, IdentityCause, IdentityRead};

// By a match, as in main.rt; and so is an enum taken, as in request.rt.
pub(crate) fn answer(number: u8, request: &mut Request, out: &mut Output) {
    match number {
        0x50 => out.put(IdentityRead::of_bank0(request.take())),
        0x51 => out.put(IdentityRead::of_window(request.take())),
        0x52 => out.put(IdentityRead::take(request).known()),
        0x53 => constants(out),
        _ => {}
    }
}

fn constants(out: &mut Output) {
    out.put(IDENTITY_BANK);
    out.put(GTIN_OFFSET);
    out.put(GTIN_LEN);
    out.put(IDENTIFICATION_NUMBER_OFFSET);
    out.put(IDENTIFICATION_NUMBER_LEN);
    out.put(LOGICAL_GEAR_INDEX_OFFSET);
    out.put(IDENTITY_WINDOW_LEN);
    out.put(MASK);
}

impl Take<'_> for DeviceIdentity {
    fn take(request: &mut Request) -> Self {
        DeviceIdentity {
            gtin: request.take(),
            identification_number: request.take(),
            logical_gear_index: request.take(),
        }
    }
}

impl Put for DeviceIdentity {
    fn put(self, out: &mut Output) {
        out.put(self.gtin);
        out.put(self.identification_number);
        out.put(self.logical_gear_index);
    }
}

impl Take<'_> for IdentityRead {
    fn take(request: &mut Request) -> Self {
        match u8::take(request) {
            0 => IdentityRead::Unread,
            1 => IdentityRead::Unprovable,
            _ => IdentityRead::Known(request.take()),
        }
    }
}

impl Put for IdentityRead {
    fn put(self, out: &mut Output) {
        match self {
            IdentityRead::Unread => out.variant(0, ()),
            IdentityRead::Unprovable => out.variant(1, ()),
            IdentityRead::Known(identity) => out.variant(2, identity),
        }
    }
}

// Its number among the causes.
impl Put for IdentityCause {
    fn put(self, out: &mut Output) {
        match self {
            IdentityCause::Unknown => out.variant(1, ()),
            IdentityCause::Unprovable => out.variant(2, ()),
        }
    }
}
