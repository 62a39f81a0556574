// Lines of text: a name and a decimal number, ended by byte 10. Read at a place of a text, and written at a place of a buffer.
#![tactic(auto)]

ghost use Rattle.std.specs.Prelude.{◌≡◌, ◌+◌, ◌^◌, ◌≤◌, ◌<◌, length};
ghost use Rattle.lists.specs.Parts.{put};
ghost use Rattle.text_lines.specs.Decimal.{decimal, digit_count, value_from};
ghost use Rattle.text_lines.specs.Lines.{number_text, begins, is_numeral, number_at, number_line};

// A line of a text, by its value, and where the next one begins.
#[derive(Clone, Copy)]
pub struct Line<T> {
    pub value: T,
    pub next: usize,
}

// Whether the text begins with the name.
pub fn starts(name: &[u8], text: &[u8]) -> bool
    ensures { result ≡ begins name.now text.now }
{
    text.starts_with(name)
}

// How many digits the text begins with.
pub fn digits(text: &[u8]) -> usize
    ensures value { result ≡ digit_count text.now }
    ensures upper_bound { result ≤ length text.now }
{
    for (i, byte) in text.iter().enumerate() {
        if !byte.is_ascii_digit() {
            return i;
        }
    }
    text.len()
}

// The number of at most seven digits.
pub fn value(text: &[u8]) -> usize
    requires text_len_bound { length text.now ≤ 7 }
    requires text_value { digit_count text.now ≡ length text.now }
    ensures { result ≡ value_from 0 text.now }
{
    let mut n: usize = 0;
    for byte in text {
        n = n * 10 + (*byte as usize - 48);
    }
    n
}

// Whether the `count` digits at the start of the text are a number: one to `most`, without leading zero.
pub fn is_numeral(most: usize, count: usize, text: &[u8]) -> bool
    ensures { result ≡ is_numeral most count text.now }
{
    1 <= count && count <= most && (count <= 1 || !text.starts_with(b"0"))
}

// A number and byte 10 at the start of the text, which begins at place `at`.
fn number(most: usize, text: &[u8], at: usize) -> Option<Line<usize>>
    requires most_bound { most ≤ 7 }
    requires text_bound { at + length text.now < 2 ^ 63 }
    ensures { result ≡ number_at most at text.now }
{
    let count = digits(text);
    if !is_numeral(most, count, text) {
        return None;
    }
    if text.len() <= count {
        return None;
    }
    if text[count] != 10 {
        return None;
    }
    let n = value(&text[..count]);
    Some(Line {
        value: n,
        next: at + count + 1,
    })
}

// The line at place `at`: the name, a number of one to `most` digits without leading zero, and byte 10.
pub fn number_line(most: usize, name: &[u8], text: &[u8], at: usize) -> Option<Line<usize>>
    requires { most ≤ 7 }
    ensures { result ≡ number_line most name.now text.now at }
{
    if text.len() < at {
        return None;
    }
    if !starts(name, &text[at..]) {
        return None;
    }
    let start = at + name.len();
    number(most, &text[start..], start)
}

// How many digits n has.
pub fn width(n: usize) -> usize
    ensures { result ≡ length (decimal n) }
{
    let mut count = 1;
    let mut front = n;
    // A `while`: how many digits are left shows by what is left of the number.
    while 10 <= front {
        front = front / 10;
        count += 1;
    }
    count
}

// The bytes of the line of a name and a number, worked out beside its writing: a text that does not fit is refused before a byte is written.
pub fn line_length(name: &[u8], n: usize) -> usize
    ensures { result ≡ length (number_text name.now n) }
{
    name.len() + width(n) + 1
}

// Writes the bytes from place `at` on, and gives the place after them.
pub fn put_bytes(out: &mut [u8], at: usize, bytes: &[u8]) -> usize
    requires { at + length bytes.now ≤ length out.old }
    ensures value { result ≡ at + length bytes.now }
    ensures out_after { out.new ≡ put at bytes.now out.old }
{
    let end = at + bytes.len();
    out[at..end].copy_from_slice(bytes);
    end
}

// Writes the digits of n from place `at` on, the last one first, and gives the place after them.
pub fn put_decimal(out: &mut [u8], at: usize, n: usize) -> usize
    requires { at + length (decimal n) ≤ length out.old }
    ensures value { result ≡ at + length (decimal n) }
    ensures out_after { out.new ≡ put at (decimal n) out.old }
{
    let end = at + width(n);
    let mut i = end;
    let mut front = n;
    // A `while`: how many digits are left shows by what is left of the number.
    while 10 <= front {
        i -= 1;
        out[i] = 48 + (front % 10) as u8;
        front = front / 10;
    }
    out[at] = 48 + front as u8;
    end
}

// Writes the line of a name and a number from place `at` on, and gives the place after it.
pub fn put_line(out: &mut [u8], at: usize, name: &[u8], n: usize) -> usize
    requires { at + length (number_text name.now n) ≤ length out.old }
    ensures value { result ≡ at + length (number_text name.now n) }
    ensures out_after { out.new ≡ put at (number_text name.now n) out.old }
{
    let digits = put_bytes(out, at, name);
    let end = put_decimal(out, digits, n);
    put_bytes(out, end, b"\n")
}
