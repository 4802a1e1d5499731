// What is put out: bytes stored into a slice that may be too short for them, and a byte in hex digits.
ghost use Rattle.std.specs.Prelude.{◌≡◌, ◌<◌, set};
ghost use Rattle.std.proofs.lemmas.List.Edits.{sets};
ghost use Rattle.records.specs.Text.{hex_digit, hex_digits};

// Stores a value at an index, where the slice has one.
pub fn put<T: Copy>(out: &mut [T], at: usize, value: T)
    ensures { out.new ≡ set out.old at value }
{
    if at < out.len() {
        out[at] = value;
    }
}

// Stores bytes from an index on, as far as the slice goes.
pub fn put_all(out: &mut [u8], at: usize, bytes: &[u8])
    ensures { out.new ≡ sets out.old at bytes.now }
{
    if out.len() <= at {
        return;
    }
    let n = usize::min(bytes.len(), out.len() - at);
    out[at..at + n].copy_from_slice(&bytes[..n]);
}

// A byte in two upper-case hex digits. `write!` answers a result, and here nothing can fail.
pub fn hex_digits(byte: u8) -> [u8; 2]
    ensures { result ≡ hex_digits byte }
{
    [hex_digit(byte / 16), hex_digit(byte % 16)]
}

// Below 16, as a half of a byte is.
fn hex_digit(n: u8) -> u8
    requires { n < 16 }
    ensures { result ≡ hex_digit n }
{
    let digits: &'static [u8] = b"0123456789ABCDEF";
    digits[n as usize]
}
