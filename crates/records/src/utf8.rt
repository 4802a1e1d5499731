// Well-formed UTF-8 (Unicode, table 3-7).
ghost use Rattle.std.specs.Prelude.{◌≡◌, ◌∷◌, ◌-◌, ◌≤◌, drop, replicate};
ghost use Rattle.std.specs.Bool.{then_some};
ghost use Rattle.records.specs.Utf8.{to, tail, follow, sequence_len};

// The length of the well-formed sequence that bytes begin with. The arms are the table's rows.
pub(crate) fn sequence_len(bytes: &[u8]) -> Option<usize>
    ensures { result ≡ sequence_len bytes.now }
{
    let first = *bytes.first()?;
    match first {
        0x00..=0x7F => Some(1),
        0xC2..=0xDF => followed(bytes, 2, 0x80, 0xBF),
        0xE0 => followed(bytes, 3, 0xA0, 0xBF),
        0xE1..=0xEC => followed(bytes, 3, 0x80, 0xBF),
        0xED => followed(bytes, 3, 0x80, 0x9F),
        0xEE..=0xEF => followed(bytes, 3, 0x80, 0xBF),
        0xF0 => followed(bytes, 4, 0x90, 0xBF),
        0xF1..=0xF3 => followed(bytes, 4, 0x80, 0xBF),
        0xF4 => followed(bytes, 4, 0x80, 0x8F),
        _ => None,
    }
}

// The length, two at least, where the second byte is from low to high and each further one from 80 to BF hex.
fn followed(bytes: &[u8], len: usize, low: u8, high: u8) -> Option<usize>
    requires { 2 ≤ len }
    ensures { result ≡ then_some (follow (to low high ∷ replicate (len - 2) tail) (drop 1 bytes.now)) len }
{
    let (second, further) = bytes.get(1..len)?.split_first()?;
    let is_followed = (low..=high).contains(second)
        && further.iter().all(|b| (0x80..=0xBF).contains(b));
    is_followed.then_some(len)
}
