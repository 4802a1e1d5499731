// What a file says.
ghost use Rattle.std.specs.Prelude.{◌≡◌, ◌+◌, ◌*◌, ◌^◌, ◌≤◌, ◌<◌, length, take, drop};
ghost use Rattle.bus.specs.Number.{number};
ghost use Rattle.stores.specs.File.{is_marked, is_good, layout_in, numbers_in, text_field_of, parsed};

use bank::Bank1Layout;
use bus::number_of;
use records::{LuminaireNumbers, Plan};

// The length of a file without its text.
pub(crate) const HEAD_LEN: usize = 31;

const MARK: &[u8] = b"LWE";

const VERSION: u32 = 1;

// The text index of a file that has no text: the file has a number there, by 01.
const NO_TEXT: u32 = 0xFF;

// A file that has its head. The text is behind it.
#[derive(Clone, Copy)]
struct File<'a> {
    bytes: &'a [u8],
    ghost has_head: { 31 ≤ length bytes.now },
}

impl<'a> File<'a> {
    // The number that so many bytes of the head make, high byte first: four at most, as a `u32` has.
    fn number(self, at: usize, len: usize) -> u32
        requires { (len ≤ 4) × (at + len ≤ 31) }
        ensures value { result ≡ number (take len (drop at self.entry.bytes.now)) }
        ensures small { result < 2 ^ (8 * len) }
    {
        number_of(&self.bytes[at..at + len]) as u32
    }

    fn is_marked(self) -> bool
        ensures { result ≡ is_marked self.entry.bytes.now }
    {
        &self.bytes[..MARK.len()] == MARK
    }

    // Whether mark, version and total length are right, and a file without a text has none.
    fn is_good(self) -> bool
        ensures { result ≡ is_good self.entry.bytes.now }
    {
        if !self.is_marked() {
            return false;
        }
        if self.number(3, 2) != VERSION {
            return false;
        }
        let text_len = self.number(30, 1) as usize;
        if self.bytes.len() - HEAD_LEN != text_len {
            return false;
        }
        self.number(29, 1) != NO_TEXT || text_len == 0
    }

    fn layout(self) -> Bank1Layout
        ensures { result ≡ layout_in self.entry.bytes.now }
    {
        Bank1Layout {
            implemented: Some(true),
            content_format_id: Some(self.number(6, 2) as u16),
            last_offset: Some(self.number(5, 1) as u8),
        }
    }

    fn numbers(self) -> LuminaireNumbers
        ensures { result ≡ numbers_in self.entry.bytes.now }
    {
        LuminaireNumbers {
            patch_mask: self.number(8, 2) as u16,
            year: self.number(10, 1),
            week: self.number(11, 1),
            nominal_input_power_w: self.number(12, 2),
            power_at_minimum_w: self.number(14, 2),
            nominal_min_ac_voltage_v: self.number(16, 2),
            nominal_max_ac_voltage_v: self.number(18, 2),
            nominal_light_output_lm: self.number(20, 3),
            cri: self.number(23, 1),
            cct_kelvin: self.number(24, 2),
            light_distribution_type: self.number(26, 1),
            lamp_current_ma: self.number(27, 2),
        }
    }

    fn text_field(self) -> Option<usize>
        ensures { result ≡ text_field_of self.entry.bytes.now }
    {
        let index = self.number(29, 1);
        (index != NO_TEXT).then_some(index as usize)
    }
}

// The plan that a file asks for; none for a bad file. The text is what is behind the head.
pub(crate) fn parse(file: &[u8]) -> Option<Plan>
    ensures { result ≡ parsed file.now }
{
    if file.len() < HEAD_LEN {
        return None;
    }
    let given = File { bytes: file };
    if !given.is_good() {
        return None;
    }
    Some(Plan {
        layout: given.layout(),
        numbers: given.numbers(),
        text_field: given.text_field(),
    })
}
