// The calls on uploads. The state is the cells of an upload, in the caller's memory.
ghost use Rattle.std.specs.Prelude.{◌≡◌};
ghost use Rattle.der.specs.Span.{Bytes};
ghost use Rattle.cells.specs.Cells.{begun_in, taken_in, status_in, end_in};
ghost use Rattle.p12.specs.Calls.{ok};
ghost use Rattle.p12.specs.Uploads.{reported, refused, status_reported, end_reported};

use stream::{Counts, Refusal};

// What an answer reports as plain numbers: those of a fault, 0 where there is none, and those of a
// check that passed, 0 where it did not.
#[derive(Clone, Copy)]
struct Reported {
    number: u8,
    offset: usize,
    after: usize,
    elements: usize,
    level: usize,
}

// A check without a fault.
fn passed(elements: usize, level: usize) -> Reported
    ensures { result ≡ reported ok 0 0 elements level }
{
    Reported {
        number: crate::OK,
        offset: 0,
        after: 0,
        elements,
        level,
    }
}

// A fault.
fn refused(refusal: Refusal) -> Reported
    ensures { result ≡ refused refusal }
{
    Reported {
        number: refusal.fault.number,
        offset: refusal.fault.offset,
        after: refusal.after,
        elements: 0,
        level: 0,
    }
}

fn status_reported(status: Result<(), Refusal>) -> Reported
    ensures { result ≡ status_reported status }
{
    match status {
        Ok(()) => passed(0, 0),
        Err(refusal) => refused(refusal),
    }
}

fn end_reported(end: Result<Counts, Refusal>) -> Reported
    ensures { result ≡ end_reported end }
{
    match end {
        Ok(counts) => passed(counts.elements, counts.level),
        Err(refusal) => refused(refusal),
    }
}

// The length of an upload is announced.
#[unsafe(no_mangle)]
pub extern "C" fn p12_upload_begin(length: usize, state: &mut [u16]) -> u8
    ensures value { result ≡ (status_reported (begun_in length state.old).answer).number }
    ensures state_after { state.new ≡ (begun_in length state.old).cells }
{
    let status = cells::begin(length, state);
    status_reported(status).number
}

// A portion of an upload arrives.
#[unsafe(no_mangle)]
pub extern "C" fn p12_upload_take(state: &mut [u16], portion: &[u8]) -> u8
    ensures value { result ≡ (status_reported (taken_in state.old portion.now).answer).number }
    ensures state_after { state.new ≡ (taken_in state.old portion.now).cells }
    ensures bytes { Bytes portion.now }
{
    let so_far = status_reported(cells::take(state, portion));
    so_far.number
}

// What is certain of an upload so far.
#[unsafe(no_mangle)]
pub extern "C" fn p12_upload_status(state: &[u16], offset: &mut usize, after: &mut usize) -> u8
    ensures value { result ≡ (status_reported (status_in state.now)).number }
    ensures offset_after { offset.new ≡ (status_reported (status_in state.now)).offset }
    ensures after_after { after.new ≡ (status_reported (status_in state.now)).after }
{
    let reported = status_reported(cells::status(state));
    *offset = reported.offset;
    *after = reported.after;
    reported.number
}

// The answer if the upload ends here.
#[unsafe(no_mangle)]
pub extern "C" fn p12_upload_end(
    state: &[u16],
    offset: &mut usize,
    after: &mut usize,
    elements: &mut usize,
    level: &mut usize,
) -> u8
    ensures value { result ≡ (end_reported (end_in state.now)).number }
    ensures offset_after { offset.new ≡ (end_reported (end_in state.now)).offset }
    ensures after_after { after.new ≡ (end_reported (end_in state.now)).after }
    ensures elements_after { elements.new ≡ (end_reported (end_in state.now)).elements }
    ensures level_after { level.new ≡ (end_reported (end_in state.now)).level }
{
    let answer = end_reported(cells::end(state));
    *offset = answer.offset;
    *after = answer.after;
    *elements = answer.elements;
    *level = answer.level;
    answer.number
}
