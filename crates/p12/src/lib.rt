// The calls for programs in C; include/p12.h says in C's words what each does. A slice is a pointer
// and a length there.
#![tactic(auto)]

ghost use Rattle.std.specs.Prelude.{◌≡◌, ltb};
ghost use Rattle.der.specs.Span.{Bytes};
ghost use Rattle.pkcs12.specs.Walk.{read_file};
ghost use Rattle.buffer.specs.Written.{length_of};
ghost use Rattle.elements.specs.Elements.{element_ranges, counted_of};
ghost use Rattle.words.specs.Layout.{table_words};
ghost use Rattle.range.specs.Range.{word_range};
ghost use Rattle.p12.specs.Calls.{number_of, offset_of};
ghost use Rattle.p12.specs.Calls.{read_number, paired_number, paired_row, read_call};
ghost use Rattle.p12.specs.Calls.{write_call, attribute_call, certificate_call, list_call, pairs_call};

mod texts;
mod upload;

use attributes::Item;
use der::Fault;
use range::Range;

// The number of an answer that is no refusal.
pub const OK: u8 = 0;

// There are no more attributes; no refusal has this number.
pub const DONE: u8 = 255;

// The number of an answer: that of a refusal, `OK` where there is none.
fn number_of<T: Copy>(answer: Result<T, Fault>) -> u8
    ensures { result ≡ number_of answer }
{
    match answer {
        Ok(_) => OK,
        Err(f) => f.number,
    }
}

// The offset of a refusal, 0 where there is none.
fn offset_of<T: Copy>(answer: Result<T, Fault>) -> usize
    ensures { result ≡ offset_of answer }
{
    match answer {
        Ok(_) => 0,
        Err(f) => f.offset,
    }
}

// The length of what was written, 0 where nothing was.
fn length_of(written: Result<usize, Fault>) -> usize
    ensures { result ≡ length_of written }
{
    written.unwrap_or(0)
}

// The row of a certificate, 0 where there is none.
fn row_of(paired: Result<usize, Fault>) -> usize
    ensures { result ≡ paired_row paired }
{
    paired.unwrap_or(0)
}

// Whether memory of so many words is shorter than a table.
fn is_short(size: usize) -> bool
    ensures { result ≡ ltb size table_words }
{
    size < words::TABLE_WORDS
}

// How many words a table takes.
#[unsafe(no_mangle)]
pub extern "C" fn p12_table_length() -> usize
    ensures { result ≡ table_words }
{
    words::TABLE_WORDS
}

// Reads a file into a table of words; of a refused file that is the empty table.
#[unsafe(no_mangle)]
pub extern "C" fn p12_read(file: &[u8], table: &mut [u16], offset: &mut usize) -> u8
    ensures value { result ≡ (read_call file.now table.old).number }
    ensures table_after { table.new ≡ (read_call file.now table.old).memory }
    ensures offset_after { offset.new ≡ (read_call file.now table.old).value }
    ensures bytes { Bytes file.now }
{
    let answer = reader::read_into(file, table);
    *offset = offset_of(answer);
    number_of(answer)
}

// The range of the MAC input in a file.
#[unsafe(no_mangle)]
pub extern "C" fn p12_mac_input(file: &[u8], start: &mut usize, end: &mut usize) -> u8
    ensures value { result ≡ read_number (read_file file.now).answer }
    ensures start_after { start.new ≡ (read_file file.now).table.mac_input.start }
    ensures end_after { end.new ≡ (read_file file.now).table.mac_input.end }
    ensures bytes { Bytes file.now }
{
    let reading = reader::read(file);
    let input = reading.table.mac_input;
    *start = input.start as usize;
    *end = input.end as usize;
    number_of(reading.answer)
}

// Writes the file of a table into a buffer.
#[unsafe(no_mangle)]
pub extern "C" fn p12_write(table: &[u16], bytes: &[u8], out: &mut [u8], written: &mut usize) -> u8
    ensures value { result ≡ (write_call table.now bytes.now out.old).number }
    ensures out_after { out.new ≡ (write_call table.now bytes.now out.old).memory }
    ensures written_after { written.new ≡ (write_call table.now bytes.now out.old).value }
    ensures bytes { Bytes bytes.now }
{
    if is_short(table.len()) {
        *written = 0;
        return buffer::NOT_SOUND;
    }
    let file = writer::write(load::table(table), bytes, out);
    *written = length_of(file);
    number_of(file)
}

// Attribute i of a bag, as a row of words.
#[unsafe(no_mangle)]
pub extern "C" fn p12_attribute(
    table: &[u16],
    bytes: &[u8],
    bag: usize,
    i: usize,
    row: &mut [u16],
) -> u8
    ensures value { result ≡ (attribute_call table.now bytes.now bag i row.old).number }
    ensures row_after { row.new ≡ (attribute_call table.now bytes.now bag i row.old).memory }
    ensures bytes { Bytes bytes.now }
{
    if is_short(table.len()) {
        return buffer::NOT_SOUND;
    }
    match attributes::attribute(load::table(table), bytes, bag, i) {
        Ok(Item::Attribute(a)) => number_of(words::store_row(a, row)),
        Ok(Item::Ready) => DONE,
        Ok(Item::Done) => DONE,
        Err(fault) => fault.number,
    }
}

// Element i of an attribute's values, and how many there are.
#[unsafe(no_mangle)]
pub extern "C" fn p12_element(
    bytes: &[u8],
    from: u32,
    to: u32,
    i: usize,
    start: &mut usize,
    end: &mut usize,
) -> usize
    ensures value { result ≡ (counted_of (element_ranges bytes.now (word_range from to)) i).count }
    ensures start_after { start.new ≡ (counted_of (element_ranges bytes.now (word_range from to)) i).element.start }
    ensures end_after { end.new ≡ (counted_of (element_ranges bytes.now (word_range from to)) i).element.end }
    ensures bytes { Bytes bytes.now }
{
    let counted = elements::element(bytes, Range::of_words(from, to), i);
    let range = counted.element;
    *start = range.start as usize;
    *end = range.end as usize;
    counted.count
}

// The certificate bag for a key bag.
#[unsafe(no_mangle)]
pub extern "C" fn p12_certificate_for(
    table: &[u16],
    bytes: &[u8],
    key: usize,
    bag: &mut usize,
) -> u8
    ensures value { result ≡ paired_number (certificate_call table.now bytes.now key) }
    ensures bag_after { bag.new ≡ paired_row (certificate_call table.now bytes.now key) }
    ensures bytes { Bytes bytes.now }
{
    if is_short(table.len()) {
        *bag = 0;
        return buffer::NOT_SOUND;
    }
    let paired = identities::certificate_for(load::table(table), bytes, key);
    *bag = row_of(paired);
    number_of(paired)
}

// The listing of a file, into a buffer.
#[unsafe(no_mangle)]
pub extern "C" fn p12_list(file: &[u8], out: &mut [u8], written: &mut usize) -> u8
    ensures value { result ≡ (list_call file.now out.old).number }
    ensures out_after { out.new ≡ (list_call file.now out.old).memory }
    ensures written_after { written.new ≡ (list_call file.now out.old).value }
    ensures bytes { Bytes file.now }
{
    let answer = listing::list(file.len(), reader::read(file), out);
    *written = length_of(answer);
    number_of(answer)
}

// The pairs of a file as text, into a buffer.
#[unsafe(no_mangle)]
pub extern "C" fn p12_pairs(file: &[u8], out: &mut [u8], written: &mut usize) -> u8
    ensures value { result ≡ (pairs_call file.now out.old).number }
    ensures out_after { out.new ≡ (pairs_call file.now out.old).memory }
    ensures written_after { written.new ≡ (pairs_call file.now out.old).value }
    ensures bytes { Bytes file.now }
{
    let text = pair_lines::list(file, reader::read(file), out);
    *written = length_of(text);
    number_of(text)
}
