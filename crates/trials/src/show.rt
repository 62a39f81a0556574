// What is printed of a call, on one line: its letter, then numbers with a space before each. Bytes stand in brackets: up to 32 one by one, more
// by their count and a sum that goes by their order.
use calendar::Day;
use catalogue::{Catalogue, Code};
use lengths::Lengths;
use refusal::Refusal;
use session::Session;
use session_parts::Meters;
use symbol::Operation;

// Standard output.
const STDOUT_FILENO: i32 = 1;

// Prints a letter at the start of a line.
pub fn letter(b: u8) {
    let one = [b; 1];
    io::write_all(STDOUT_FILENO, &one);
}

// Ends a line.
pub fn end() {
    io::write_all(STDOUT_FILENO, b"\n");
}

// Prints a number.
pub fn number(n: usize) {
    io::write_all(STDOUT_FILENO, b" ");
    io::print_decimal(STDOUT_FILENO, n as u64);
}

// Prints whether a call was accepted, 0, or the number of its refusal.
pub fn verdict(v: Result<(), Refusal>) {
    match v {
        Ok(()) => number(0),
        Err(refusal) => number(wide(refusal::number(refusal))),
    }
}

// Prints the number that a call gave, or the number of its refusal after a minus sign.
pub fn outcome(o: Result<usize, Refusal>) {
    match o {
        Ok(n) => number(n),
        Err(refusal) => {
            io::write_all(STDOUT_FILENO, b" -");
            io::print_decimal(STDOUT_FILENO, refusal::number(refusal) as u64);
        }
    }
}

fn wide(x: u8) -> usize {
    x as usize
}

// The sum with one number more.
fn added(sum: u64, x: usize) -> u64 {
    (sum % 1000003 * 257 + (x % 65536) as u64 + 1) % 1000003
}

// The sum with the bytes of a buffer.
pub fn sum(start: u64, bytes: &[u8]) -> u64 {
    let mut out = start;
    for byte in bytes {
        out = added(out, wide(*byte));
    }
    out
}

// Prints bytes, one by one.
fn each(bytes: &[u8]) {
    for byte in bytes {
        number(wide(*byte));
    }
}

// Prints the bytes of a buffer.
pub fn bytes(b: &[u8]) {
    io::write_all(STDOUT_FILENO, b" (");
    if b.len() <= 32 {
        each(b);
    } else {
        number(b.len());
        io::write_all(STDOUT_FILENO, b" bytes");
        total(sum(0, b));
    }
    io::write_all(STDOUT_FILENO, b" )");
}

// Prints a sum.
pub fn total(sum: u64) {
    io::write_all(STDOUT_FILENO, b" ");
    io::print_decimal(STDOUT_FILENO, sum);
}

// 0 for the short code, 1 for the even one, 2 for the turning one, 3 for the round one.
fn code_number(code: Code) -> usize {
    match code {
        Code::Short => 0,
        Code::Even => 1,
        Code::Turn => 2,
        Code::Round => 3,
    }
}

// 0 for exclusive or, 1 for addition.
fn sum_number(sum: Operation) -> usize {
    match sum {
        Operation::ExclusiveOr => 0,
        Operation::Addition => 1,
    }
}

// Prints a day: year, month, day.
fn day(d: Day) {
    number(d.year as usize);
    number(d.month as usize);
    number(d.day as usize);
}

// How many places there are up to the last one that does not hold 0.
fn used(places: &[u32; 32]) -> usize {
    let mut count: usize = 0;
    for (i, place) in places.iter().enumerate() {
        if *place != 0 {
            count = i + 1;
        }
    }
    count
}

// Prints lengths: whether there are lines, and the places up to the last one that does not hold 0, their count first.
fn ends(l: Lengths) {
    number(if l.given { 1 } else { 0 });
    let places = l.places;
    let count = used(&places);
    number(count);
    for place in places.iter().take(count) {
        number(*place as usize);
    }
}

// Prints a catalogue: its code, N, K, S, its sum, its dates and its lengths.
pub fn catalogue(c: Catalogue) {
    let code = c.code;
    number(code_number(code));
    number(c.servers);
    number(c.messages);
    number(c.symbol);
    let sum = c.sum;
    number(sum_number(sum));
    day(c.opening);
    day(c.closing);
    ends(c.lengths);
}

// Marks as a number, the first one the most.
fn marks(all: &[bool; 16]) -> usize {
    let mut out: usize = 0;
    for mark in all {
        out = out % 32768 * 2;
        if *mark {
            out += 1;
        }
    }
    out
}

fn wider(x: u32) -> usize {
    x as usize
}

// The sum with the meters of a row, each as two numbers: its high half, then its low one.
fn row_sum(start: u64, row: &[u32; 16]) -> u64 {
    let mut out = start;
    for meter in row {
        let bytes = wider(*meter);
        out = added(added(out, bytes / 65536), bytes);
    }
    out
}

// Prints a sum over all meters, those of the queries first.
pub fn metered(m: Meters) {
    let sent = m.sent;
    let got = m.got;
    total(row_sum(row_sum(0, &sent), &got));
}

// Prints a row of meters, one by one.
fn row(meters: &[u32; 16]) {
    for meter in meters {
        number(wider(*meter));
    }
}

// Prints all meters, a row in brackets for the queries and one for the answers.
pub fn meters(m: Meters) {
    let sent = m.sent;
    let got = m.got;
    io::write_all(STDOUT_FILENO, b" (");
    row(&sent);
    io::write_all(STDOUT_FILENO, b" ) (");
    row(&got);
    io::write_all(STDOUT_FILENO, b" )");
}

// Prints a session: catalogue, wanted message, sum of the key's places, the marks, and a sum of the meters.
pub fn session(s: Session) {
    io::write_all(STDOUT_FILENO, b" [");
    let c = s.catalogue;
    catalogue(c);
    number(s.wanted);
    let key = s.key;
    total(sum(0, &key));
    let issued = s.issued;
    number(marks(&issued));
    let taken = s.taken;
    number(marks(&taken));
    metered(s.meters);
    io::write_all(STDOUT_FILENO, b" ]");
}

// Prints bytes as text.
pub fn text(b: &[u8]) {
    io::write_all(STDOUT_FILENO, b);
}
