// The lines of the input: a letter, then numbers with one space before each; or `t`, then a text up to the byte `~`.
ghost use Rattle.std.specs.Prelude.{◌<◌};

// A number, and where it ends.
#[derive(Clone, Copy)]
pub struct Number {
    pub value: usize,
    pub next: usize,
}

// A line: its letter, its first five numbers (0 for each that is not there), and where the next line begins.
#[derive(Clone, Copy)]
pub struct Line {
    pub letter: u8,
    pub a: usize,
    pub b: usize,
    pub c: usize,
    pub d: usize,
    pub e: usize,
    pub next: usize,
}

// The value with one digit more; a value of ten digits stays.
fn appended(value: usize, digit: u8) -> usize {
    if value < 1000000000 && b'0' <= digit {
        value * 10 + (digit - b'0') as usize
    } else {
        value
    }
}

// The number at `at`, one space before it passed over; 0 if no digit is there.
pub fn number_at(text: &[u8], at: usize) -> Number {
    let from = if at < text.len() && text[at] == b' ' {
        at + 1
    } else {
        at
    };
    let mut value: usize = 0;
    for next in from..text.len() {
        let b = text[next];
        if !b.is_ascii_digit() {
            return Number { value, next };
        }
        value = appended(value, b);
    }
    Number {
        value,
        next: from.max(text.len()),
    }
}

// The place of the first `stop` from `at` on, or the end of the text.
fn end(text: &[u8], at: usize, stop: u8) -> usize {
    for i in at..text.len() {
        if text[i] == stop {
            return i;
        }
    }
    at.max(text.len())
}

// The place after `at`, or the end.
fn after(at: usize, end: usize) -> usize {
    if at < end { at + 1 } else { end }
}

// A part of the input as a line: `a` and `b` are its start and end.
fn part(letter: u8, from: usize, to: usize, next: usize) -> Line {
    Line {
        letter,
        a: from,
        b: to,
        c: 0,
        d: 0,
        e: 0,
        next,
    }
}

// The line at `at`: for a comment (`#`) and a text, the part; past the end, the letter 0.
// The letter 0 in place of an `Option`, which is no plainer: each loop asks before the end alone, and its test stays for `further`.
pub fn line_at(text: &[u8], at: usize) -> Line {
    if text.len() <= at {
        return part(0, at, at, at);
    }
    let letter = text[at];
    if letter == b'#' {
        let to = end(text, at, 10);
        return part(letter, at, to, after(to, text.len()));
    }
    if letter == b't' {
        let to = end(text, at, 126);
        return part(letter, at + 1, to, after(after(to, text.len()), text.len()));
    }
    let a = number_at(text, at + 1);
    let b = number_at(text, a.next);
    let c = number_at(text, b.next);
    let d = number_at(text, c.next);
    let e = number_at(text, d.next);
    Line {
        letter,
        a: a.value,
        b: b.value,
        c: c.value,
        d: d.value,
        e: e.value,
        next: after(e.next, text.len()),
    }
}

// Where the next line begins: behind the start of this one, or else at the end.
pub fn further(at: usize, next: usize, end: usize) -> usize
    requires { at < end }
    ensures { at < result }
{
    if at < next { next } else { end }
}
