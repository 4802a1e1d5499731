// The functions of luminaire_write.rs.
use crate::output::{Output, Put};
use crate::plan;
use crate::request::{Request, Take};
use bank::{Bank1Layout, FieldKind, LuminaireField, LuminaireTextField, NumberRule, Refusal};

// By a match, as in main.rt; and so is an enum taken, as in request.rt.
pub(crate) fn answer(number: u8, request: &mut Request, out: &mut Output) {
    match number {
        0x30 => out.put(LuminaireField::of_index(request.take())),
        0x31 => out.put(LuminaireField::of_text(request.take())),
        0x32 => out.put(LuminaireField::take(request).last_offset()),
        0x33 => out.put(LuminaireField::take(request).in_format(request.take())),
        0x34 => out.put(LuminaireField::take(request).ends_by(request.take())),
        0x35 => out.put(LuminaireField::take(request).accepts_number(
            request.take(),
            request.take(),
        )),
        0x36 => out.put(LuminaireField::take(request).accepts_text(request.take())),
        0x37 => out.put(Bank1Layout::from_header(request.take())),
        0x38 => out.put(bank::check_writable(request.take(), request.take())),
        0x39..=0x3F => plan::answer(number, request, out),
        // The numbers of this file are used up: these stand with the read-out.
        0x46 => plan::answer(number, request, out),
        0x47 => out.put(NumberRule::take(request).shows_back(request.take(), request.take())),
        0x48 => out.put(LuminaireField::take(request).check_text(request.take())),
        _ => {}
    }
}

impl Take<'_> for NumberRule {
    fn take(request: &mut Request) -> Self {
        match u8::take(request) {
            0 => NumberRule::Year,
            1 => NumberRule::Week,
            2 => NumberRule::Power,
            3 => NumberRule::MainsVoltage,
            4 => NumberRule::LightOutput,
            5 => NumberRule::Cri,
            6 => NumberRule::Cct,
            7 => NumberRule::LightDistributionType,
            _ => NumberRule::LampCurrent,
        }
    }
}

impl Put for NumberRule {
    fn put(self, out: &mut Output) {
        out.put(self as u8);
    }
}

impl Take<'_> for LuminaireTextField {
    fn take(request: &mut Request) -> Self {
        match u8::take(request) {
            0 => LuminaireTextField::LuminaireColour,
            1 => LuminaireTextField::LuminaireIdentification,
            2 => LuminaireTextField::LightDistribution,
            3 => LuminaireTextField::OemName,
            4 => LuminaireTextField::CustomerStockingNumber,
            _ => LuminaireTextField::FreeUse,
        }
    }
}

impl Put for LuminaireTextField {
    fn put(self, out: &mut Output) {
        out.put(self as u8);
    }
}

impl Take<'_> for FieldKind {
    fn take(request: &mut Request) -> Self {
        match u8::take(request) {
            0 => FieldKind::LayoutId,
            1 => FieldKind::Number {
                patch: request.take(),
                rule: request.take(),
            },
            _ => FieldKind::Text(request.take()),
        }
    }
}

impl Put for FieldKind {
    fn put(self, out: &mut Output) {
        match self {
            FieldKind::LayoutId => out.variant(0, ()),
            FieldKind::Number { patch, rule } => {
                out.variant(1, patch);
                out.put(rule);
            }
            FieldKind::Text(field) => out.variant(2, field),
        }
    }
}

impl Take<'_> for LuminaireField {
    fn take(request: &mut Request) -> Self {
        LuminaireField {
            offset: request.take(),
            len: request.take(),
            since: request.take(),
            kind: request.take(),
        }
    }
}

impl Put for LuminaireField {
    fn put(self, out: &mut Output) {
        out.put(self.offset);
        out.put(self.len);
        out.put(self.since);
        out.put(self.kind);
    }
}

impl Take<'_> for Bank1Layout {
    fn take(request: &mut Request) -> Self {
        Bank1Layout {
            implemented: request.take(),
            content_format_id: request.take(),
            last_offset: request.take(),
        }
    }
}

impl Put for Bank1Layout {
    fn put(self, out: &mut Output) {
        out.put(self.implemented);
        out.put(self.content_format_id);
        out.put(self.last_offset);
    }
}

// Its number, and the value that it carries.
impl Put for Refusal {
    fn put(self, out: &mut Output) {
        out.put(self.number());
        if let Some(value) = self.value() {
            out.put(value);
        }
    }
}
