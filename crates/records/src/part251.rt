// The texts of bank 1 as they stand there (part251.rs).
ghost use Rattle.std.specs.Prelude.{◌≡◌, ◌≤◌, length, take};
ghost use Rattle.records.specs.Text.{until_zero, text_bytes, text_present};

use bus::TextRegion;

// Whether a text's region is wholly present.
pub fn text_present(bank: &[u8], region: TextRegion) -> bool
    ensures { result ≡ text_present bank.now region }
{
    region.offset as usize + region.len as usize <= bank.len()
}

// The part of a text's region before its first 00; empty where the region is not wholly present.
pub fn text_bytes(bank: &[u8], region: TextRegion) -> &[u8]
    ensures { result.now ≡ text_bytes bank.now region }
{
    let start = region.offset as usize;
    match bank.get(start..start + region.len as usize) {
        Some(raw) => &raw[..text_len(raw)],
        None => &[],
    }
}

// How many bytes stand before the first 00.
pub(crate) fn text_len(raw: &[u8]) -> usize
    ensures { (result ≤ length raw.now) × (take result raw.now ≡ until_zero raw.now) }
{
    raw.iter().position(|byte| *byte == 0).unwrap_or(raw.len())
}
