// Units that no accesses give: a field set to any value, nothing checked.
use answer_unit::AnswerUnit;
use catalogue::Catalogue;
use trial_bytes::draw;
use trial_bytes::input::Line;

// g: the unit with another catalogue.
pub fn catalogue(unit: AnswerUnit, c: Catalogue) -> AnswerUnit {
    let mut out = unit;
    out.catalogue = c;
    out
}

// N, H, A: the unit with another server, another number of bytes held, or of bytes waiting.
fn count(unit: AnswerUnit, letter: u8, value: usize) -> AnswerUnit {
    let mut out = unit;
    match letter {
        b'N' => out.server = value,
        b'H' => out.held = value,
        _ => out.waiting = value,
    }
    out
}

// E, F, O, B: the unit with the enable bit, the flag, the overrun bit or the refused bit set or taken away.
fn bit(unit: AnswerUnit, letter: u8, value: bool) -> AnswerUnit {
    let mut out = unit;
    match letter {
        b'E' => out.enable = value,
        b'F' => out.flag = value,
        b'O' => out.overrun = value,
        _ => out.refused = value,
    }
    out
}

// V: the unit with another number of a refusal.
fn refusal(unit: AnswerUnit, value: usize) -> AnswerUnit {
    let mut out = unit;
    out.refusal = draw::byte(value);
    out
}

// Q: the unit with another byte in its query, where there is such a place.
fn query(unit: AnswerUnit, place: usize, value: usize) -> AnswerUnit {
    let mut out = unit;
    if place < 32 {
        out.query[place] = draw::byte(value);
    }
    out
}

// Y: the unit with another byte in its answer, where there is such a place.
fn answer(unit: AnswerUnit, place: usize, value: usize) -> AnswerUnit {
    let mut out = unit;
    if place < 64 {
        out.answer[place] = draw::byte(value);
    }
    out
}

// A line that sets a field of numbers, bits or bytes; any other leaves the unit.
pub fn on_letter(unit: AnswerUnit, line: Line) -> AnswerUnit {
    let letter = line.letter;
    match letter {
        b'N' | b'H' | b'A' => count(unit, letter, line.a),
        b'E' | b'F' | b'O' | b'B' => bit(unit, letter, line.a != 0),
        b'V' => refusal(unit, line.a),
        b'Q' => query(unit, line.a, line.b),
        b'Y' => answer(unit, line.a, line.b),
        _ => unit,
    }
}
