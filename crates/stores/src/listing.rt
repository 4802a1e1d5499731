// What is printed.
ghost use Rattle.std.specs.Prelude.{◌≡◌, ◌+◌, ◌*◌, ◌≤◌, ◌<◌, [], ◌++◌, length};
ghost use Rattle.stores.specs.Listing.{digit, decimal, counted, line, plan_text, printed};
ghost use Rattle.stores.specs.Steps.{lines};

use crate::file::{HEAD_LEN, parse};
use records::fixed_list::FixedList;
use records::output::hex_digits;
use records::{MOST_STORES, Plan};

// The bytes of a store's line.
const LINE_LEN: usize = 6;

// At most so many are in a line that counts: a word of eight bytes, three digits and the line's end.
const COUNTED_LEN: usize = 12;

// Room for what is printed for any file.
const TEXT_LEN: usize = COUNTED_LEN + MOST_STORES * LINE_LEN;

pub(crate) type Text = FixedList<u8, TEXT_LEN>;

const BAD_FILE: &[u8] = b"bad file\n";

const STORES_WORD: &[u8] = b"stores ";

const REFUSED_WORD: &[u8] = b"refused ";

// Below 10, as a remainder by 10 is.
fn decimal_digit(n: usize) -> u8
    requires { n < 10 }
    ensures { result ≡ digit n }
{
    b'0' + n as u8
}

// Puts a number in decimal behind a text, and as the others here asks for the room that it takes. `write!` answers a result,
// and here nothing can fail.
fn put_decimal(text: &mut Text, n: usize)
    requires { (n < 1000) × (length text.old + 3 ≤ 492) }
    ensures { text.new ≡ text.old ++ decimal n }
{
    if n < 10 {
        text.fill_up(&[decimal_digit(n)]);
    } else if n < 100 {
        text.fill_up(&[decimal_digit(n / 10), decimal_digit(n % 10)]);
    } else {
        text.fill_up(&[
            decimal_digit(n / 100),
            decimal_digit(n / 10 % 10),
            decimal_digit(n % 10),
        ]);
    }
}

// Puts a line of a word and a number behind a text.
fn put_counted(text: &mut Text, word: &[u8], n: usize)
    requires { (n < 1000) × (length text.old + length word.now + 4 ≤ 492) }
    ensures { text.new ≡ text.old ++ counted word.now n }
{
    text.fill_up(word);
    put_decimal(text, n);
    text.fill_up(b"\n");
}

// The line of a store.
fn line_of(offset: u8, value: u8) -> [u8; LINE_LEN]
    ensures { result ≡ line offset value }
{
    let o = hex_digits(offset);
    let v = hex_digits(value);
    [o[0], o[1], b' ', v[0], v[1], b'\n']
}

// Puts a line for each store, as `Plan::stores` lays them, behind a text.
fn put_lines(text: &mut Text, offsets: &[u8], values: &[u8])
    requires { length text.old + 6 * length offsets.now ≤ 492 }
    ensures { text.new ≡ text.old ++ lines offsets.now values.now }
{
    for (offset, value) in offsets.iter().zip(values) {
        text.fill_up(&line_of(*offset, *value));
    }
}

// Puts the plan's stores or its refusal into an empty list.
fn put_plan(listing: &mut Text, plan: Plan, text: &[u8])
    requires { listing.old ≡ [] }
    ensures { listing.new ≡ plan_text plan text.now }
{
    let mut offsets = [0; MOST_STORES];
    let mut values = [0; MOST_STORES];
    match plan.stores(text, &mut offsets, &mut values) {
        Ok(count) => {
            put_counted(listing, STORES_WORD, count);
            put_lines(listing, &offsets[..count], &values[..count]);
        }
        Err(refusal) => put_counted(listing, REFUSED_WORD, refusal.number() as usize),
    }
}

// What is printed for a file.
pub(crate) fn answer(file: &[u8]) -> Text
    ensures { result ≡ printed file.now }
{
    let mut text = FixedList::new(0);
    let Some(plan) = parse(file) else {
        text.fill_up(BAD_FILE);
        return text;
    };
    put_plan(&mut text, plan, &file[HEAD_LEN..]);
    text
}
