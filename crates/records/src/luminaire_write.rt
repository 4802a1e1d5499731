// The plan of a write to bank 1: its writes, their stages and stores, and why it may be refused (luminaire_write.rs).
ghost use Rattle.std.specs.Prelude.{◌≡◌, ◌+◌, ◌≤◌, ◌<◌, ◌^◌, length, take, Err, IfSome, None, Ok, Some, option_map, slice_get, true};
ghost use Rattle.std.proofs.lemmas.List.Edits.{sets};
ghost use Rattle.std.specs.Bool.{then_some};
ghost use Rattle.std.specs.Int.Count.{ones};
ghost use Rattle.bus.specs.Number.{low_bytes};
ghost use Rattle.bus.specs.Value.{laid_into};
ghost use Rattle.bank.specs.Refusal.{tested, checked};
ghost use Rattle.bank.specs.Fields.{luminaire_fields};
ghost use Rattle.records.specs.Writes.{number_values, number_for, is_set, wanted_number, is_for, terminated, bytes_for, written, planned_writes, field_writes, all_bytes, end_of, held_by, is_staged, stages_of, stages_at, part_of, single_bytes, write_stores, stores_at, offsets_of, values_of, gather};
ghost use Rattle.records.specs.Plan.{number_checks, write_text_checks, if_wanted, field_checks, index_over, plan_checks, stores_of, planned, offsets_after, values_after};
ghost use Rattle.records.specs.Count.{counted_stores};
ghost use Rattle.records.specs.Steps.{WantedAt, NoneWanted, number_stores, text_stores};

use crate::fixed_list::FixedList;
use crate::output::{put, put_all};
use bank::luminaire_write::LUMINAIRE_FIELDS;
use bank::{Bank1Layout, FieldKind, LuminaireField, Refusal, check_writable, luminaire_fields};
use bus::part251::BANK1_FORMAT_GATE_LAST_OFFSET;

// IEC 62386-102 §9.10.2, table 8
pub const BANK_UNLOCKED: u8 = 0x55;

pub const BANK1_HEADER_LEN: u16 = BANK1_FORMAT_GATE_LAST_OFFSET as u16 + 1;

// DiiA 251 §9.2.5
pub const TEXT_TERMINATOR: u8 = 0;

// The bits of a patch mask that stand for a number.
pub const PATCH_BITS: u16 = 0x07FF;

// No plan has more stores: all numbers of format 5, and a text of 60 bytes that is emptied first.
pub const MOST_STORES: usize = 80;

// The bits of a patch mask for the ten numbers that come first in the table, and for the last.
const FIRST_NUMBERS: u32 = 0x03FF;

const LAMP_CURRENT: u32 = 0x0400;

// How many fields there are: an index over the last is that of none.
const FIELDS: usize = LUMINAIRE_FIELDS.len();

// The numbers that may be written, and a mask of those that are. 01 has the mask: its bits 11 to 15, which stand for no
// number, are refused with 9.
#[derive(Clone, Copy)]
pub struct LuminaireNumbers {
    pub patch_mask: u16,
    pub year: u32,
    pub week: u32,
    pub nominal_input_power_w: u32,
    pub power_at_minimum_w: u32,
    pub nominal_min_ac_voltage_v: u32,
    pub nominal_max_ac_voltage_v: u32,
    pub nominal_light_output_lm: u32,
    pub cri: u32,
    pub cct_kelvin: u32,
    pub light_distribution_type: u32,
    pub lamp_current_ma: u32,
}

// The numbers in the order of the mask's bits.
fn number_values(numbers: LuminaireNumbers) -> [u32; 11]
    ensures { result ≡ number_values numbers }
{
    [
        numbers.year,
        numbers.week,
        numbers.nominal_input_power_w,
        numbers.power_at_minimum_w,
        numbers.nominal_min_ac_voltage_v,
        numbers.nominal_max_ac_voltage_v,
        numbers.nominal_light_output_lm,
        numbers.cri,
        numbers.cct_kelvin,
        numbers.light_distribution_type,
        numbers.lamp_current_ma,
    ]
}

impl LuminaireNumbers {
    // How many numbers are wanted.
    pub fn wanted(self) -> u32
        ensures { result ≡ ones self.patch_mask }
    {
        self.patch_mask.count_ones()
    }

    // The number of a mask bit, where it is wanted.
    fn of_patch(self, patch: u16) -> Option<u32>
        ensures { result ≡ number_for self patch }
    {
        let bit = patch.trailing_zeros();
        if 11 <= bit || (self.patch_mask >> bit) % 2 != 1 {
            return None;
        }
        Some(number_values(self)[bit as usize])
    }

    // The number that is wanted of a field.
    fn of_field(self, field: LuminaireField) -> Option<u32>
        ensures { result ≡ wanted_number self field.kind }
    {
        match field.kind {
            FieldKind::Number { patch, .. } => self.of_patch(patch),
            FieldKind::LayoutId | FieldKind::Text(_) => None,
        }
    }
}

// A write to a field: its bytes are the first so many of a slice that is lent beside it. 01 has the field by its index in
// the place of a reference.
#[derive(Clone, Copy)]
pub struct FieldWrite {
    pub field: usize,
    pub len: u8,
}

// Which bytes of its write a stage stores: the 00 that empties a text, all, those behind the first, or the first.
#[derive(Clone, Copy)]
pub enum StagePart {
    Terminator,
    Whole,
    Tail,
    Head,
}

// One part of a write, which is stored before the next begins.
#[derive(Clone, Copy)]
pub struct WriteStage {
    pub field: usize,
    pub offset: u8,
    pub part: StagePart,
}

impl WriteStage {
    // The stage's bytes, of a write that has these.
    pub fn bytes<'a>(self, bytes: &'a [u8]) -> &'a [u8]
        ensures { result.now ≡ part_of self.part bytes.now }
    {
        let (head, tail) = bytes.split_at(usize::min(1, bytes.len()));
        match self.part {
            StagePart::Terminator => &[TEXT_TERMINATOR],
            StagePart::Whole => bytes,
            StagePart::Tail => tail,
            StagePart::Head => head,
        }
    }
}

// A row of the table: a field, and its index there.
#[derive(Clone, Copy)]
struct Row {
    index: usize,
    field: LuminaireField,
    ghost in_table: { slice_get luminaire_fields index ≡ Some field },
}

// The places of the table where something is wanted, a bit for each. The mask's first ten bits are the numbers at the places 1
// to 10, and its last the lamp current, at place 16. An index over the last is that of no place.
fn wanted_places(numbers: LuminaireNumbers, text_field: Option<usize>) -> u32
    ensures few { result < 2 ^ 18 }
    ensures places { WantedAt numbers text_field result }
{
    let mask = numbers.patch_mask as u32;
    let places = (mask & FIRST_NUMBERS) << 1 | (mask & LAMP_CURRENT) << 6;
    let Some(index) = text_field else {
        return places;
    };
    if FIELDS <= index {
        return places;
    }
    places | 1 << index
}

// The first row from a place on where something is wanted. A plan goes from one to the next, and does not look at the others.
fn next_row(places: u32, from: usize) -> Option<Row>
    requires few { places < 2 ^ 18 }
    requires within { from ≤ 18 }
    ensures some { IfSome result (λ row. (from ≤ row.index) × (row.index < 18) × NoneWanted places from row.index × (is_set places row.index ≡ true)) }
    ensures none { result ≡ None → NoneWanted places from 18 }
{
    let rest = places >> from;
    if rest == 0 {
        return None;
    }
    let index = from + rest.trailing_zeros() as usize;
    Some(Row {
        index,
        field: luminaire_fields()[index],
    })
}

// DiiA 251 §9.2.5: whether a write of so many bytes is a text that could be read half written.
fn is_staged(field: LuminaireField, len: usize) -> bool
    ensures { result ≡ is_staged field.kind len }
{
    matches!(field.kind, FieldKind::Text(_)) && 2 <= len
}

// The stages of a write of so many bytes: a text is emptied first and gets its first byte last.
fn stages_of(row: Row, len: usize) -> FixedList<WriteStage, 3>
    ensures { result ≡ stages_of row.index row.field len }
{
    let whole = WriteStage {
        field: row.index,
        offset: row.field.offset,
        part: StagePart::Whole,
    };
    let mut stages = FixedList::new(whole);
    if is_staged(row.field, len) {
        stages.extend(&[
            WriteStage {
                part: StagePart::Terminator,
                ..whole
            },
            WriteStage {
                offset: row.field.offset + 1,
                part: StagePart::Tail,
                ..whole
            },
            WriteStage {
                part: StagePart::Head,
                ..whole
            },
        ]);
    } else {
        stages.push(whole);
    }
    stages
}

impl FieldWrite {
    // The row of its field, where there is such a field.
    fn row(self) -> Option<Row>
        ensures index { IfSome result (λ row. row.index ≡ self.field) }
        ensures field { option_map (λ row. row.field) result ≡ slice_get luminaire_fields self.field }
    {
        let field = LuminaireField::of_index(self.field)?;
        Some(Row {
            index: self.field,
            field,
        })
    }

    // The offset behind its last byte, where there is such a field.
    pub fn end(self) -> Option<usize>
        ensures { result ≡ end_of self }
    {
        let field = LuminaireField::of_index(self.field)?;
        Some(field.offset as usize + self.len as usize)
    }

    // Whether the bank has the write's bytes already.
    pub fn held_by(self, bytes: &[u8], bank: &[u8]) -> bool
        ensures { result ≡ held_by self bytes.now bank.now }
    {
        let Some(field) = LuminaireField::of_index(self.field) else {
            return false;
        };
        let start = field.offset as usize;
        let len = self.len as usize;
        let Some(held) = bank.get(start..start + len) else {
            return false;
        };
        let Some(own) = bytes.get(..len) else {
            return false;
        };
        held == own
    }

    // How many stages it has.
    pub fn stages(self) -> usize
        ensures { result ≡ length (stages_at self) }
    {
        match self.row() {
            Some(row) => stages_of(row, self.len as usize).len(),
            None => 0,
        }
    }

    // The stage at a place in their order.
    pub fn stage(self, place: usize) -> Option<WriteStage>
        ensures { result ≡ slice_get (stages_at self) place }
    {
        let stages = stages_of(self.row()?, self.len as usize);
        stages.as_slice().get(place).copied()
    }
}

// How many stores the write of a text has: a 00 stands behind a text that is shorter than its field, and a write of two or
// more bytes empties it first.
fn text_stores(field: LuminaireField, len: usize) -> usize
    requires { len ≤ field.len }
    ensures { result ≡ text_stores field len }
{
    let bytes = usize::min(field.len as usize, len + 1);
    bytes + is_staged(field, bytes) as usize
}

// The bytes of a write: no field has more than 60.
type WriteBytes = FixedList<u8, 60>;

// The low bytes of a number, high byte first: four at most, as a `u32` has.
fn set_number(bytes: &mut WriteBytes, value: u32, len: u8)
    requires { len ≤ 4 }
    ensures { bytes.new ≡ low_bytes len value }
{
    let wide = value.to_be_bytes();
    bytes.clear();
    bytes.extend(&wide[4 - len as usize..]);
}

// DiiA 251 §9.2.5: a text, cut to its field, with a 00 behind it where it is shorter.
fn set_text(bytes: &mut WriteBytes, field: LuminaireField, text: &[u8])
    requires { field.len ≤ 60 }
    ensures { bytes.new ≡ terminated field text.now }
{
    bytes.clear();
    match text.get(..field.len as usize) {
        Some(cut) => bytes.extend(cut),
        None => {
            bytes.extend(text);
            bytes.push(TEXT_TERMINATOR);
        }
    }
}

fn is_for(text_field: Option<usize>, index: usize) -> bool
    ensures { result ≡ is_for text_field index }
{
    text_field == Some(index)
}

// A store: its offset in the bank, and its value.
#[derive(Clone, Copy)]
pub struct Store {
    pub offset: u8,
    pub value: u8,
}

// Room for the stores of a plan.
pub(crate) const NO_STORES: [Store; MOST_STORES] = [Store {
    offset: 0,
    value: 0,
}; MOST_STORES];

// Lays the stores of a stage from an index on, one for each byte, and answers the index behind them.
fn lay_stage(offset: u8, bytes: &[u8], stores: &mut [Store], from: usize) -> usize
    requires in_bank { offset + length bytes.now ≤ 256 }
    requires room { from + length bytes.now ≤ length stores.old }
    ensures behind { result ≡ from + length bytes.now }
    ensures laid { stores.new ≡ sets stores.old from (single_bytes offset bytes.now) }
{
    for (i, byte) in bytes.iter().enumerate() {
        stores[from + i] = Store {
            offset: offset + i as u8,
            value: *byte,
        };
    }
    from + bytes.len()
}

// The same for the stores of the write to a field, in the order of its stages.
fn lay_write(row: Row, bytes: &[u8], stores: &mut [Store], from: usize) -> usize
    requires fits { length bytes.now ≤ row.field.len }
    requires room { from + length (write_stores (written row.index row.field bytes.now)) ≤ length stores.old }
    ensures behind { result ≡ from + length (write_stores (written row.index row.field bytes.now)) }
    ensures laid { stores.new ≡ sets stores.old from (write_stores (written row.index row.field bytes.now)) }
{
    let start = row.field.offset;
    if !is_staged(row.field, bytes.len()) {
        return lay_stage(start, bytes, stores, from);
    }
    let emptied = lay_stage(start, &[TEXT_TERMINATOR], stores, from);
    let tailed = lay_stage(start + 1, &bytes[1..], stores, emptied);
    lay_stage(start, &bytes[..1], stores, tailed)
}

// What is to be written: the numbers, and at most one text, whose field is told by its index.
#[derive(Clone, Copy)]
struct Content<'a> {
    numbers: LuminaireNumbers,
    text_field: Option<usize>,
    text: &'a [u8],
}

impl<'a> Content<'a> {
    // Sets the bytes that are to be written to a field, where there are any. They are lent, so that one list serves all
    // fields. Inlined, since most have none, and the call would take longer than that.
    #[inline(always)]
    fn set_bytes(&self, row: Row, bytes: &mut WriteBytes) -> bool
        ensures { then_some result bytes.new ≡ bytes_for row.field.kind self.now.numbers self.now.text_field self.now.text.now row.index row.field }
    {
        match row.field.kind {
            FieldKind::Number { .. } => {
                let Some(value) = self.numbers.of_field(row.field) else {
                    return false;
                };
                set_number(bytes, value, row.field.len);
                true
            }
            FieldKind::Text(_) if is_for(self.text_field, row.index) => {
                set_text(bytes, row.field, self.text);
                true
            }
            FieldKind::LayoutId | FieldKind::Text(_) => false,
        }
    }

    // Lays the stores of the write to a field from an index on, where there is one, and answers the index behind them. The
    // bytes of a number are laid from where they stand: no list is filled with them first.
    fn lay_field(&self, row: Row, stores: &mut [Store], from: usize) -> usize
        requires room { from + length (stores_at self.now.numbers self.now.text_field self.now.text.now row.index row.field) ≤ length stores.old }
        ensures behind { result ≡ from + length (stores_at self.now.numbers self.now.text_field self.now.text.now row.index row.field) }
        ensures laid { stores.new ≡ sets stores.old from (stores_at self.now.numbers self.now.text_field self.now.text.now row.index row.field) }
    {
        match row.field.kind {
            FieldKind::Number { .. } => {
                let Some(value) = self.numbers.of_field(row.field) else {
                    return from;
                };
                let wide = value.to_be_bytes();
                let bytes = &wide[4 - row.field.len as usize..];
                lay_stage(row.field.offset, bytes, stores, from)
            }
            FieldKind::Text(_) if is_for(self.text_field, row.index) => {
                let mut bytes = FixedList::new(0);
                set_text(&mut bytes, row.field, self.text);
                lay_write(row, bytes.as_slice(), stores, from)
            }
            FieldKind::LayoutId | FieldKind::Text(_) => from,
        }
    }
}

// The planned writes by rising offset, and all their bytes one behind the other. Each slice takes as many as it holds;
// the answer is how many writes there are. What is wanted comes as in the claim, which names numbers, field and text.
pub fn planned_writes(
    numbers: LuminaireNumbers,
    text_field: Option<usize>,
    text: &[u8],
    writes: &mut [FieldWrite],
    bytes: &mut [u8],
) -> usize
    ensures count { result ≡ length (planned_writes numbers text_field text.now) }
    ensures writes { writes.new ≡ laid_into (field_writes (planned_writes numbers text_field text.now)) writes.old }
    ensures bytes { bytes.new ≡ laid_into (all_bytes (planned_writes numbers text_field text.now)) bytes.old }
{
    let content = Content {
        numbers,
        text_field,
        text,
    };
    let mut own = FixedList::new(0);
    let table = luminaire_fields();
    let mut count = 0;
    let mut used = 0;
    for (index, field) in table.iter().enumerate() {
        let row = Row {
            index,
            field: *field,
        };
        if content.set_bytes(row, &mut own) {
            let write = FieldWrite {
                field: index,
                len: own.len() as u8,
            };
            put(writes, count, write);
            put_all(bytes, used, own.as_slice());
            count += 1;
            used += own.len();
        }
    }
    count
}

// Lays stores into the two byte slices that 01 has a caller lend, the offsets and the values.
fn lay_stores(stores: &[Store], offsets: &mut [u8], values: &mut [u8])
    requires offsets_room { length stores.now ≤ length offsets.old }
    requires values_room { length stores.now ≤ length values.old }
    ensures offsets { offsets.new ≡ laid_into (offsets_of stores.now) offsets.old }
    ensures values { values.new ≡ laid_into (values_of stores.now) values.old }
{
    for (i, store) in stores.iter().enumerate() {
        offsets[i] = store.offset;
        values[i] = store.value;
    }
}

// Whether a number may be written to a field.
fn check_number(layout: Bank1Layout, field: LuminaireField, value: u32) -> Result<(), Refusal>
    ensures { result ≡ tested (number_checks layout field value) }
{
    let format = check_writable(layout, field)?;
    if !field.accepts_number(value as u64, format) {
        return Err(Refusal::NumberNotAccepted);
    }
    Ok(())
}

// Whether a text may be written to a field.
fn check_text(layout: Bank1Layout, field: LuminaireField, text: &[u8]) -> Result<(), Refusal>
    ensures { result ≡ tested (write_text_checks layout field text.now) }
{
    check_writable(layout, field)?;
    field.check_text(text)
}

// What is to be written to bank 1: the numbers, and at most one text, whose field is told by its index. The text itself
// is lent.
#[derive(Clone, Copy)]
pub struct Plan {
    pub layout: Bank1Layout,
    pub numbers: LuminaireNumbers,
    pub text_field: Option<usize>,
}

impl Plan {
    // How many stores the number that is wanted of a field has, if it may be written.
    fn count_number(self, field: LuminaireField) -> Result<usize, Refusal>
        ensures { result ≡ checked (if_wanted (wanted_number self.numbers field.kind) (number_checks self.layout field)) Err (Ok (number_stores self.numbers field)) }
    {
        let Some(value) = self.numbers.of_field(field) else {
            return Ok(0);
        };
        check_number(self.layout, field, value)?;
        Ok(field.len as usize)
    }

    // How many stores the write to a field has, if what is wanted of it may be written, a number before a text.
    fn count_field(self, row: Row, text: &[u8]) -> Result<usize, Refusal>
        ensures { result ≡ checked (field_checks self text.now row.index row.field) Err (Ok (length (stores_at self.numbers self.text_field text.now row.index row.field))) }
    {
        let number = self.count_number(row.field)?;
        if !is_for(self.text_field, row.index) {
            return Ok(number);
        }
        check_text(self.layout, row.field, text)?;
        // A field that takes a text has no number.
        Ok(text_stores(row.field, text.len()))
    }

    // The same for all fields, by rising offset.
    fn count_fields(self, text: &[u8]) -> Result<usize, Refusal>
        ensures { result ≡ checked (gather (field_checks self text.now) luminaire_fields) Err (Ok (length (stores_of self text.now))) }
    {
        let places = wanted_places(self.numbers, self.text_field);
        let mut count = 0;
        let mut from = 0;
        while let Some(row) = next_row(places, from) {
            count += self.count_field(row, text)?;
            from = row.index + 1;
        }
        Ok(count)
    }

    fn has_unknown_field(self) -> bool
        ensures { result ≡ index_over self.text_field }
    {
        self.text_field.is_some_and(|index| FIELDS <= index)
    }

    // How many stores the plan has, without laying any, or why it is refused.
    pub fn count(self, text: &[u8]) -> Result<usize, Refusal>
        ensures { result ≡ counted_stores self text.now }
    {
        if PATCH_BITS < self.numbers.patch_mask {
            return Err(Refusal::UnknownMaskBits);
        }
        if self.has_unknown_field() {
            return Err(Refusal::UnknownField);
        }
        self.count_fields(text)
    }

    // Lays the stores, by rising offset of their fields, whether the plan is accepted or not: the room begins with them then.
    // It is lent, since handed back it would be copied.
    pub(crate) fn lay(self, text: &[u8], stores: &mut [Store])
        requires { length (stores_of self text.now) ≤ length stores.old }
        ensures { take (length (stores_of self text.now)) stores.new ≡ stores_of self text.now }
    {
        let content = Content {
            numbers: self.numbers,
            text_field: self.text_field,
            text,
        };
        let places = wanted_places(self.numbers, self.text_field);
        let mut laid = 0;
        let mut from = 0;
        while let Some(row) = next_row(places, from) {
            laid = content.lay_field(row, stores, laid);
            from = row.index + 1;
        }
    }

    // Lays the stores of the plan, and answers how many there are. By 01 two byte slices are lent, one for the offsets and
    // one for the values, each of any length: the plan is refused where either is too short.
    pub fn stores(
        self,
        text: &[u8],
        offsets: &mut [u8],
        values: &mut [u8],
    ) -> Result<usize, Refusal>
        ensures count { result ≡ planned self text.now offsets.old values.old }
        ensures offsets { offsets.new ≡ offsets_after self text.now offsets.old values.old }
        ensures values { values.new ≡ values_after self text.now offsets.old values.old }
    {
        let count = self.count(text)?;
        if offsets.len() < count || values.len() < count {
            return Err(Refusal::SliceTooShort);
        }
        let mut stores = NO_STORES;
        self.lay(text, &mut stores);
        lay_stores(&stores[..count], offsets, values);
        Ok(count)
    }
}
