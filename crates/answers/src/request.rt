// A request as text: two upper-case hexadecimal digits to a byte, high byte first. One that is too short reads as 0 where
// it ends, which shows as a difference.
ghost use Rattle.std.specs.Prelude.{◌≤◌, length};

// A request has no more bytes.
pub(crate) const REQUEST_LEN: usize = 4096;

// It has no more numbers of two bytes.
pub(crate) const NUMBERS_LEN: usize = REQUEST_LEN / 2;

// What is left to read of a request. Each value is read behind the one before.
#[derive(Drop)]
pub(crate) struct Request<'a> {
    rest: &'a [u8],
}

// A value that a request has. That of an enum is its place among the variants, of which std makes no case: so by a match.
pub(crate) trait Take<'a> {
    fn take(request: &mut Request<'a>) -> Self;
}

// Only upper-case digits count, which `to_digit` doesn't say.
fn digit(c: u8) -> u8
    ensures { result ≤ 15 }
{
    match c {
        b'0'..=b'9' => c - b'0',
        b'A'..=b'F' => c - b'A' + 10,
        _ => 0,
    }
}

impl<'a> Request<'a> {
    // The request that the digits spell. Its bytes stand in space, as many as there is room for.
    pub(crate) fn decode(digits: &[u8], space: &'a mut [u8]) -> Request<'a>
        ensures { length result.rest.now ≤ length space.old }
    {
        let (pairs, _) = digits.as_chunks::<2>();
        let len = pairs.len().min(space.len());
        for (byte, &[high, low]) in space.iter_mut().zip(pairs) {
            *byte = digit(high) * 16 + digit(low);
        }
        Request {
            rest: &space[..len],
        }
    }

    pub(crate) fn take<T: Take<'a>>(&mut self) -> T {
        T::take(self)
    }

    // The next byte, or 0 behind the end.
    fn byte(&mut self) -> u8 {
        let Some((byte, rest)) = self.rest.split_first() else {
            return 0;
        };
        self.rest = rest;
        *byte
    }

    // The next bytes, with 0 for those behind the end.
    fn array<const N: usize>(&mut self) -> [u8; N] {
        let mut bytes = [0; N];
        for byte in &mut bytes {
            *byte = self.byte();
        }
        bytes
    }

    // So many bytes; none, and nothing behind them, where they are not all there.
    fn bytes(&mut self, len: usize) -> &'a [u8] {
        let Some((bytes, rest)) = self.rest.split_at_checked(len) else {
            self.rest = &[];
            return &[];
        };
        self.rest = rest;
        bytes
    }

    // Copies a slice that is lent to the start of space, as much of it as there is room for.
    pub(crate) fn lend<'s>(&mut self, space: &'s mut [u8]) -> &'s mut [u8]
        ensures { length result.now ≤ length space.old }
    {
        let bytes = <&[u8]>::take(self);
        let len = bytes.len().min(space.len());
        space[..len].copy_from_slice(&bytes[..len]);
        &mut space[..len]
    }

    // A slice of numbers, of two bytes each.
    pub(crate) fn numbers(&mut self) -> &'a [[u8; 2]] {
        let count = u16::take(self);
        let (numbers, _) = self.bytes(2 * count as usize).as_chunks::<2>();
        numbers
    }
}

// Reads values that are numbers to the start of space, as many as there is room for.
pub(crate) fn lay_values<'a, 's, T: Take<'a> + Copy>(
    numbers: &'a [[u8; 2]],
    space: &'s mut [T],
) -> &'s mut [T]
    ensures { length result.now ≤ length space.old }
{
    let len = numbers.len().min(space.len());
    let mut values = Request {
        rest: numbers.as_flattened(),
    };
    for value in &mut space[..len] {
        *value = values.take();
    }
    &mut space[..len]
}

impl Take<'_> for u8 {
    fn take(request: &mut Request) -> Self {
        request.byte()
    }
}

impl Take<'_> for bool {
    fn take(request: &mut Request) -> Self {
        request.byte() != 0
    }
}

impl Take<'_> for u16 {
    fn take(request: &mut Request) -> Self {
        u16::from_be_bytes(request.array())
    }
}

impl Take<'_> for u32 {
    fn take(request: &mut Request) -> Self {
        u32::from_be_bytes(request.array())
    }
}

impl Take<'_> for u64 {
    fn take(request: &mut Request) -> Self {
        u64::from_be_bytes(request.array())
    }
}

impl Take<'_> for usize {
    fn take(request: &mut Request) -> Self {
        usize::from_be_bytes(request.array())
    }
}

// As it is put, in output.rt. A number that no `i8` is reads as 0.
impl Take<'_> for i8 {
    fn take(request: &mut Request) -> Self {
        let negative = bool::take(request);
        let n = i8::try_from(u64::take(request)).unwrap_or(0);
        if negative { -1 - n } else { n }
    }
}

// Its length, then as many bytes.
impl<'a> Take<'a> for &'a [u8] {
    fn take(request: &mut Request<'a>) -> Self {
        let len = u16::take(request);
        request.bytes(len as usize)
    }
}

impl<'a, T: Take<'a>> Take<'a> for Option<T> {
    fn take(request: &mut Request<'a>) -> Self {
        if bool::take(request) {
            Some(request.take())
        } else {
            None
        }
    }
}
