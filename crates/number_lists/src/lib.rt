// Lists of numbers in decimal with one space between: read from a text that they end, and written.
#![tactic(auto)]

ghost use Rattle.std.specs.Prelude.{◌≡◌, true, ◌+◌, ◌*◌, ◌^◌, ◌≤◌, ◌<◌, length, Some};
ghost use Rattle.lists.specs.Parts.{put};
ghost use Rattle.number_lists.specs.NumberLists.{after_space, after_spaces, spaced};
ghost use Rattle.number_lists.specs.NumberLists.{numeral_from, numeral_at, ends_at, numbers_from, numbers_at, scanned, scan_of, list_of};

use text_lines::Line;

// What a scan of a list of numbers says: how many there are, and whether each is below 256.
#[derive(Clone, Copy)]
pub struct Scanned {
    pub count: usize,
    pub bytes: bool,
}

// The number at the start of the text, which begins at place `at`, and the place after it.
fn numeral(text: &[u8], at: usize) -> Option<Line<usize>>
    requires { at + length text.now < 2 ^ 63 }
    ensures { result ≡ numeral_from at text.now }
{
    let count = text_lines::digits(text);
    if !text_lines::is_numeral(5, count, text) {
        return None;
    }
    let value = text_lines::value(&text[..count]);
    Some(Line {
        value,
        next: at + count,
    })
}

// The number at place `at`, and the place after it.
fn number_at(text: &[u8], at: usize) -> Option<Line<usize>>
    ensures { result ≡ numeral_at text.now at }
{
    if text.len() < at {
        return None;
    }
    numeral(&text[at..], at)
}

// Whether byte 10 stands at the place and ends the text.
fn ends(text: &[u8], at: usize) -> bool
    ensures { result ≡ ends_at text.now at }
{
    at < text.len() && text[at] == 10 && text.len() == at + 1
}

// How many numbers there are from place `start` on, one or more, and whether each is a byte.
fn scan_some(text: &[u8], start: usize) -> Option<Scanned>
    ensures { result ≡ scan_of (numbers_from (length text.now) text.now start) }
{
    let mut at = start;
    let mut count: usize = 0;
    let mut bytes = true;
    // A `while`: only the number that was read says where the next one begins.
    while at < text.len() {
        let number = number_at(text, at)?;
        count += 1;
        bytes &= number.value < 256;
        let next = number.next;
        if ends(text, next) {
            return Some(Scanned { count, bytes });
        }
        if text.len() <= next {
            return None;
        }
        if text[next] != 32 {
            return None;
        }
        at = next + 1;
    }
    None
}

// How many numbers there are from place `start` on, and whether each is a byte.
pub fn scan(text: &[u8], start: usize) -> Option<Scanned>
    ensures { result ≡ scan_of (numbers_at text.now start) }
{
    if ends(text, start) {
        return Some(Scanned {
            count: 0,
            bytes: true,
        });
    }
    scan_some(text, start)
}

// Writes the numbers from place `start` on, of which there are as many as the buffer has places, each a byte.
pub fn put_numbers(text: &[u8], start: usize, out: &mut [u8])
    requires { scan_of (numbers_at text.now start) ≡ Some (scanned (length out.old) true) }
    ensures { out.new ≡ list_of (numbers_at text.now start) }
{
    let mut at = start;
    for place in out.iter_mut() {
        let Some(number) = number_at(text, at) else {
            return;
        };
        *place = number.value as u8;
        at = number.next + 1;
    }
}

// Writes a space and the digits of n from place `at` on, and gives the place after them.
fn put_after_space(out: &mut [u8], at: usize, n: u8) -> usize
    requires { at + 4 ≤ length out.old }
    ensures value { result ≡ at + length (after_space n) }
    ensures out_after { out.new ≡ put at (after_space n) out.old }
{
    let digits = text_lines::put_bytes(out, at, b" ");
    text_lines::put_decimal(out, digits, n as usize)
}

// Writes the numbers, each after a space, from place `start` on, and gives the place after them.
fn put_after_spaces(out: &mut [u8], start: usize, numbers: &[u8]) -> usize
    requires { start + 4 * length numbers.now ≤ length out.old }
    ensures value { result ≡ start + length (after_spaces numbers.now) }
    ensures upper_bound { result ≤ start + 4 * length numbers.now }
    ensures out_after { out.new ≡ put start (after_spaces numbers.now) out.old }
{
    let mut at = start;
    for n in numbers {
        at = put_after_space(out, at, *n);
    }
    at
}

// Writes the numbers with one space between from place `at` on, and gives the place after them.
pub fn put_spaced(out: &mut [u8], at: usize, numbers: &[u8]) -> usize
    requires { at + 4 * length numbers.now ≤ length out.old }
    ensures value { result ≡ at + length (spaced numbers.now) }
    ensures upper_bound { result ≤ at + 4 * length numbers.now }
    ensures out_after { out.new ≡ put at (spaced numbers.now) out.old }
{
    if numbers.len() == 0 {
        return at;
    }
    let first = numbers[0];
    let rest = text_lines::put_decimal(out, at, first as usize);
    put_after_spaces(out, rest, &numbers[1..])
}
