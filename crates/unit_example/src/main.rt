// The eight accesses that answer one query (02, item 12): two bytes of it, a start with the interrupt enabled, the flag, the refusal number, the status, the
// byte of the answer, and the flag cleared. Each is printed, with the interrupt line after it; README.md has what they print.
#![tactic(auto)]

use answer_unit::{AnswerUnit, Handed};
use catalogue::Catalogue;
use refusal::Refusal;

// Standard output.
const STDOUT_FILENO: i32 = 1;

// Prints a name and a number.
fn put(name: &[u8], n: u8) {
    io::write_all(STDOUT_FILENO, name);
    io::print_decimal(STDOUT_FILENO, n as u64);
}

// Prints what a call ended with, and the line after it.
fn ended(unit: AnswerUnit, verdict: Result<(), Refusal>) {
    if let Err(refusal) = verdict {
        put(b" refused=", refusal::number(refusal));
    }
    put(b" line=", if unit.line() { 1 } else { 0 });
    io::write_all(STDOUT_FILENO, b"\n");
}

// Writes a register, and prints it.
fn write(unit: AnswerUnit, register: u8, value: u8, store: &[u8]) -> AnswerUnit {
    let handed = unit.write(register as usize, value, store);
    put(b"write=", register);
    put(b" value=", value);
    ended(handed.unit, handed.verdict);
    handed.unit
}

// Reads a register, and prints it.
fn read(unit: AnswerUnit, register: u8, store: &[u8]) -> AnswerUnit {
    let got = unit.read(register as usize, store);
    put(b"read=", register);
    put(b" byte=", got.byte);
    ended(got.unit, got.verdict);
    got.unit
}

// A unit for server 0 of two, with two messages of one byte.
fn set_up() -> Handed {
    let mut c: Catalogue = catalogue::zero();
    c.servers = 2;
    c.messages = 2;
    c.symbol = 1;
    AnswerUnit::blank().set_up(c, 0)
}

fn main() {
    let store: [u8; 2] = [90, 195];
    let mut unit = set_up().unit;
    unit = write(unit, 2, 1, &store);
    unit = write(unit, 2, 1, &store);
    unit = write(unit, 0, 3, &store);
    unit = read(unit, 5, &store);
    unit = read(unit, 4, &store);
    unit = read(unit, 1, &store);
    unit = read(unit, 3, &store);
    write(unit, 5, 1, &store);
}
