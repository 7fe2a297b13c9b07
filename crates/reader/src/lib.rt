// Reads a PKCS #12 file into a table: in the caller's memory, or by value.
#![tactic(auto)]

ghost use Rattle.std.specs.Prelude.{◌≡◌, ◌≤◌, length};
ghost use Rattle.der.specs.Span.{Bytes};
ghost use Rattle.pkcs12.specs.Report.{answer_report};
ghost use Rattle.pkcs12.specs.Walk.{read_file};
ghost use Rattle.words.specs.Layout.{table_words};
ghost use Rattle.words.specs.Stored.{words_of};
ghost use Rattle.reader.specs.Memory.{Summed, read_into};

mod bags;
mod file;
mod rows;
mod safes;

use der::{Cursor, Fault};
use parts::File;
use pkcs12::{Mac, Reading};
use words::{Counts, put};

// A file that is too long is refused at its start, and so is memory that is too short for a table.
const LONG: Fault = Fault {
    number: buffer::TOO_LONG,
    offset: 0,
};

const SHORT: Fault = Fault {
    number: buffer::SHORT_BUFFER,
    offset: 0,
};

// What was read of the whole file: the counts of the rows in the memory, and the MAC.
#[derive(Clone, Copy)]
struct Summary {
    counts: Counts,
    mac: Mac,
}

// Reads a file; its rows are in the memory.
fn walk(file: &[u8], memory: &mut [u16]) -> Result<Summary, Fault>
    requires { table_words ≤ length memory.old }
    ensures { Summed memory.new result (read_file file.now) }
{
    let Some(s) = File::new(file) else {
        return Err(LONG);
    };
    let opened = file::open(s.bytes, Cursor::over(s.bytes))?;
    let all = rows::safes(s, memory, opened.input, opened.body)?;
    let end = file::close(s, opened)?;
    let mut counts = all.counts;
    counts.elements += end.count;
    Ok(Summary {
        counts,
        mac: end.value,
    })
}

// Reads a file into the words of its table, which are 0 if the file is refused.
fn fill(file: &[u8], memory: &mut [u16]) -> Result<(), Fault>
    requires { length memory.old ≡ table_words }
    ensures value { result ≡ (read_file file.now).answer }
    ensures memory_after { memory.new ≡ words_of (read_file file.now).table }
    ensures bytes { Bytes file.now }
{
    match walk(file, memory) {
        Err(fault) => {
            put::clear(memory);
            Err(fault)
        }
        Ok(all) => {
            put::finish(memory, all.counts, all.mac);
            Ok(())
        }
    }
}

// The answer for a file, and its table as words at the front of the memory; 10 if the memory is
// shorter than a table.
pub fn read_into(file: &[u8], memory: &mut [u16]) -> Result<(), Fault>
    ensures value { result ≡ (read_into file.now memory.old).answer }
    ensures report { answer_report result ≡ answer_report (read_into file.now memory.old).answer }
    ensures memory_after { memory.new ≡ (read_into file.now memory.old).memory }
    ensures bytes { Bytes file.now }
{
    if memory.len() < words::TABLE_WORDS {
        return Err(SHORT);
    }
    fill(file, &mut memory[..words::TABLE_WORDS])
}

// The answer for a file, and its table.
pub fn read(file: &[u8]) -> Reading
    ensures value { result ≡ read_file file.now }
    ensures answer_value { answer_report result.answer ≡ answer_report (read_file file.now).answer }
    ensures bytes { Bytes file.now }
{
    let mut memory = [0u16; words::TABLE_WORDS];
    let answer = fill(file, &mut memory);
    let table = load::table(&memory);
    Reading { answer, table }
}
