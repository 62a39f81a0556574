// Catalogues, read from a text or made of numbers, and the dates and lengths that they are given.
use calendar::Day;
use catalogue::{Catalogue, Code};
use lengths::Lengths;
use refusal::Refusal;
use symbol::Operation;
use trial_bytes::input::Line;
use trials::show;
use trials::state::{Given, State};

// t: reads a catalogue's text, as a whole and as the start of a longer one; the catalogue handed back is the next calls'.
pub fn text(s: State, text: &[u8]) -> State {
    let reading = catalogue_text::read(text);
    show::letter(b't');
    show::verdict(reading.verdict);
    show::catalogue(reading.catalogue);
    let lines = catalogue_text::read_lines(text);
    show::verdict(lines.verdict);
    let start = lines.catalogue;
    show::catalogue(start);
    show::number(lines.next);
    show::end();
    s.with_catalogue(reading.catalogue)
}

// The code of a number: 0 short, 2 turning, 3 round, else even.
fn code_of(n: usize) -> Code {
    match n {
        0 => Code::Short,
        2 => Code::Turn,
        3 => Code::Round,
        _ => Code::Even,
    }
}

// The catalogue of five numbers: code, N, K, S, and the sum (0 exclusive or, else addition); and of the dates and lengths set before.
pub fn catalogue_of(given: Given, line: Line) -> Catalogue {
    let code = code_of(line.a);
    let sum = if line.e == 0 {
        Operation::ExclusiveOr
    } else {
        Operation::Addition
    };
    let opening = given.opening;
    let closing = given.closing;
    let lengths = given.lengths;
    Catalogue {
        code: code,
        sum: sum,
        opening: opening,
        closing: closing,
        lengths: lengths,
        servers: line.b,
        messages: line.c,
        symbol: line.d,
    }
}

// The last 32 bits.
fn narrow(n: usize) -> u32 {
    (n % 4294967296) as u32
}

// The day of three numbers.
fn day_of(line: Line) -> Day {
    Day {
        year: narrow(line.a),
        month: narrow(line.b),
        day: narrow(line.c),
    }
}

// f, l, n: the opening day and the closing day that later catalogues are given, and the day of later calls.
pub fn set_day(before: Given, line: Line) -> Given {
    let mut given = before;
    let letter = line.letter;
    match letter {
        b'f' => given.opening = day_of(line),
        b'l' => given.closing = day_of(line),
        _ => given.today = day_of(line),
    }
    given
}

// The lengths with another mark, and zeros in all places.
fn marked(given: bool) -> Lengths {
    let mut out = lengths::none();
    out.given = given;
    out
}

// The lengths with another number in a place, where there is such a place.
fn with_length(l: Lengths, place: usize, n: u32) -> Lengths {
    let mut out = l;
    if place < 32 {
        out.places[place] = n;
    }
    out
}

// p, m: whether later catalogues have lengths, all places 0; and what one of the places holds.
pub fn set_lengths(before: Given, line: Line) -> Given {
    let mut given = before;
    if line.letter == b'p' {
        given.lengths = marked(line.a != 0);
    } else {
        given.lengths = with_length(given.lengths, line.a, narrow(line.b));
    }
    given
}

// c: a catalogue, its verdict, its sizes, or why it has none, and the bound on received bytes.
pub fn catalogue(s: State, line: Line) -> State {
    let c = catalogue_of(s.given, line);
    show::letter(b'c');
    show::verdict(catalogue::verdict(c));
    match catalogue::sizes(c) {
        Ok(sizes) => {
            show::number(sizes.symbols);
            show::number(sizes.message);
            show::number(sizes.store);
            show::number(sizes.key);
            show::number(sizes.query);
            show::number(sizes.slot);
        }
        Err(refusal) => show::outcome(Err(refusal)),
    }
    show::outcome(session::bound(c));
    show::end();
    s.with_catalogue(c)
}
