// The answering end for the host program of a mirror, in C; src/correcting.rt has the calls that correct a byte. Here the names are document 01's: mirror is
// the server, request the query.
// The catalogue comes as its text; a refusal is its number with a minus sign. Each slice is a pointer and a length in C.
#![tactic(auto)]

ghost use Rattle.std.specs.Prelude.{◌≡◌, ◌^◌, ◌<◌, pos, neg_ℤ};
ghost use Rattle.refusal.specs.Numbers.{number_of};
ghost use Rattle.gozimpe.specs.Host.{signed, day_of, answering_text, longest_answer};

use calendar::Day;
use refusal::Refusal;

// One corrected byte.
pub mod correcting;

// A length, as a signed number.
fn plus(length: usize) -> i64
    requires { length < 2 ^ 32 }
    ensures { result ≡ pos length }
{
    length as i64
}

// Minus the refusal's number.
fn minus(refusal: Refusal) -> i64
    ensures { result ≡ neg_ℤ (pos (number_of refusal)) }
{
    let number = refusal::number(refusal);
    -(number as i64)
}

// Answers one request today, which is year, month and day: the answer's length, or minus the refusal's number.
pub fn gozimpe_answer(
    catalogue: &[u8],
    year: u32,
    month: u32,
    day: u32,
    mirror: u64,
    store: &[u8],
    request: &[u8],
    answer: &mut [u8],
) -> i64
    ensures value { result
        ≡ signed (answering_text catalogue.now (day_of year month day) mirror
        store.now request.now answer.old).outcome }
    ensures answer_after { answer.new
        ≡ (answering_text catalogue.now (day_of year month day) mirror
        store.now request.now answer.old).buffer }
{
    let reading = catalogue_text::read(catalogue);
    if let Err(fault) = reading.verdict {
        return minus(fault);
    }
    let today = Day { year, month, day };
    let c = reading.catalogue;
    let outcome = server::answer(c, today, mirror as usize, store, request, answer);
    match outcome {
        Ok(length) => plus(length),
        Err(refusal) => minus(refusal),
    }
}

// The length of the longest answer under a catalogue, or minus the refusal's number.
pub fn gozimpe_longest_answer(catalogue: &[u8]) -> i64
    ensures { result ≡ signed (longest_answer catalogue.now) }
{
    let reading = catalogue_text::read(catalogue);
    if let Err(refusal) = reading.verdict {
        return minus(refusal);
    }
    match catalogue::sizes(reading.catalogue) {
        Ok(sizes) => plus(sizes.slot),
        Err(refusal) => minus(refusal),
    }
}
