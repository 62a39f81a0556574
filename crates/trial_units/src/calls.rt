// The calls, each printed on a line of its own: what it gave, then the whole unit in brackets, then the line.
use answer_unit::AnswerUnit;
use catalogue::Catalogue;
use trial_bytes::draw;
use trials::show;

// Prints 1 for a bit that is set, else 0.
fn bit(value: bool) {
    show::number(if value { 1 } else { 0 });
}

// Prints sums of the places of the query and of the answer.
fn places(unit: AnswerUnit) {
    let query = unit.query;
    show::total(show::sum(0, &query));
    let answer = unit.answer;
    show::total(show::sum(0, &answer));
}

// Prints the bits for enable, flag and overrun, the bytes held, the refused bit and its number, and the bytes waiting.
fn fields(unit: AnswerUnit) {
    bit(unit.enable);
    bit(unit.flag);
    bit(unit.overrun);
    show::number(unit.held);
    bit(unit.refused);
    show::number(unit.refusal as usize);
    show::number(unit.waiting);
}

// Prints the unit: catalogue, server, the fields that are numbers and bits, and sums of the others; then the line.
fn shown(unit: AnswerUnit) {
    show::text(b" [");
    show::catalogue(unit.catalogue);
    show::number(unit.server);
    fields(unit);
    places(unit);
    show::text(b" ]");
    bit(unit.line());
    show::end();
}

// Z: a blank unit.
fn blank() -> AnswerUnit {
    let unit = AnswerUnit::blank();
    show::letter(b'Z');
    shown(unit);
    unit
}

// S SERVER: sets the unit up with the catalogue that was given.
fn set_up(before: AnswerUnit, c: Catalogue, server: usize) -> AnswerUnit {
    let handed = before.set_up(c, server);
    show::letter(b'S');
    show::verdict(handed.verdict);
    shown(handed.unit);
    handed.unit
}

// R REGISTER: reads a register.
fn read(before: AnswerUnit, register: usize, store: &[u8]) -> AnswerUnit {
    let got = before.read(register, store);
    show::letter(b'R');
    show::verdict(got.verdict);
    show::number(got.byte as usize);
    shown(got.unit);
    got.unit
}

// W REGISTER VALUE: writes a register.
fn write(before: AnswerUnit, register: usize, value: u8, store: &[u8]) -> AnswerUnit {
    let handed = before.write(register, value, store);
    show::letter(b'W');
    show::verdict(handed.verdict);
    shown(handed.unit);
    handed.unit
}

// A line that makes a call, with the store as it is lent: the unit after it.
pub fn on_call(
    unit: AnswerUnit,
    c: Catalogue,
    letter: u8,
    a: usize,
    b: usize,
    store: &[u8],
) -> AnswerUnit {
    match letter {
        b'Z' => blank(),
        b'S' => set_up(unit, c, a),
        b'R' => read(unit, a, store),
        _ => write(unit, a, draw::byte(b), store),
    }
}
