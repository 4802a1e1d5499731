// Why a call is refused: each cause has its number, and one carries a value beside it.
ghost use Rattle.std.specs.Prelude.{◌≡◌};
ghost use Rattle.bank.specs.Refusal.{number_of, value_of};

#[derive(Clone, Copy)]
pub enum Refusal {
    FieldReadOnly,
    NotImplemented,
    NotRead,
    NotPart251,
    FieldNotInFormat,
    TooShort,
    NumberNotAccepted,
    FieldNotText,
    UnknownMaskBits,
    UnknownField,
    BudgetZero,
    ReadOutInvalid,
    SliceTooShort,
    WrongChunkLength,
    TextTooLong,
    // The index of the first such byte: below 255, since length is tested first and no field is longer.
    ByteNotPrintable(u8),
}

impl Refusal {
    pub fn number(self) -> u8
        ensures { result ≡ number_of self }
    {
        match self {
            Refusal::FieldReadOnly => 1,
            Refusal::NotImplemented => 2,
            Refusal::NotRead => 3,
            Refusal::NotPart251 => 4,
            Refusal::FieldNotInFormat => 5,
            Refusal::TooShort => 6,
            Refusal::NumberNotAccepted => 7,
            Refusal::FieldNotText => 8,
            Refusal::UnknownMaskBits => 9,
            Refusal::UnknownField => 10,
            Refusal::BudgetZero => 11,
            Refusal::ReadOutInvalid => 12,
            Refusal::SliceTooShort => 13,
            Refusal::WrongChunkLength => 14,
            Refusal::TextTooLong => 15,
            Refusal::ByteNotPrintable(_) => 16,
        }
    }

    pub fn value(self) -> Option<u8>
        ensures { result ≡ value_of self }
    {
        match self {
            Refusal::ByteNotPrintable(index) => Some(index),
            _ => None,
        }
    }
}
