// A bounded text, for the `FixedText` of the Rust.
ghost use Rattle.std.specs.Prelude.{◌≡◌};
ghost use Rattle.records.specs.Text.{is_whole};

// A text is the first `len` of its bytes; the others are 0. It is the Rust's, and needs no heap. The length has two bytes, so
// that the struct has next to no padding, which every copy of it would take along: a text has at most 65,535 bytes.
#[derive(Clone, Copy)]
pub struct FixedText<const N: usize> {
    pub len: u16,
    // Whether all was copied of what it was made of, or some of it cut off at the limit.
    pub whole: bool,
    pub bytes: [u8; N],
}

// Whether a text is there and shown whole.
pub fn is_whole<const N: usize>(text: &Option<FixedText<N>>) -> bool
    ensures { result ≡ is_whole text.now }
{
    match text {
        Some(text) => text.whole,
        None => false,
    }
}
