// The lines of a catalogue's season, `open=` and `close=` (document 02, item 1): both or neither, each with a day. Read at a place of a text, and
// written at a place of a buffer.
#![tactic(auto)]

ghost use Rattle.std.specs.Prelude.{◌≡◌, ◌+◌, ◌-◌, ◌^◌, ◌≤◌, ◌<◌, length, take, drop};
ghost use Rattle.lists.specs.Parts.{put};
ghost use Rattle.text_lines.specs.Decimal.{value_from};
ghost use Rattle.season_text.specs.DayLines.{last_digit, day_text, day_line_text, day_in, day_at, day_line};
ghost use Rattle.season_text.specs.SeasonLines.{season_text, date_begins, season_lines};

use calendar::Day;
use text_lines::Line;

// The byte between the numbers of a day.
const HYPHEN: u8 = 45;

// The dates at a place of the text, three zeros each where there are none, and where they end.
#[derive(Clone, Copy)]
pub struct Season {
    pub opening: Day,
    pub closing: Day,
    pub next: usize,
}

// The byte of the last digit of n.
fn last_digit(n: u32) -> u8
    ensures { result ≡ last_digit n }
{
    48 + (n % 10) as u8
}

// The ten characters of a day, and byte 10.
fn day_text(d: Day) -> [u8; 11]
    ensures { result ≡ day_text d }
{
    [
        last_digit(d.year / 1000),
        last_digit(d.year / 100),
        last_digit(d.year / 10),
        last_digit(d.year),
        HYPHEN,
        last_digit(d.month / 10),
        last_digit(d.month),
        HYPHEN,
        last_digit(d.day / 10),
        last_digit(d.day),
        10,
    ]
}

// The number that a digit stands for; 0 for a byte below the digits.
fn digit_value(byte: u8) -> u32
    ensures value { result ≡ byte - 48 }
    ensures upper_bound { result ≤ 207 }
{
    u32::from(byte.saturating_sub(48))
}

// The number of the two digits at place i.
fn pair_in(text: &[u8], i: usize) -> u32
    requires { i + 2 ≤ length text.now }
    ensures value { result ≡ value_from 0 (take 2 (drop i text.now)) }
    ensures upper_bound { result ≤ 2277 }
{
    digit_value(text[i]) * 10 + digit_value(text[i + 1])
}

// The numbers that stand where a day's digits stand.
fn day_in(text: &[u8]) -> Day
    requires { 11 ≤ length text.now }
    ensures { result ≡ day_in text.now }
{
    Day {
        year: pair_in(text, 0) * 100 + pair_in(text, 2),
        month: pair_in(text, 5),
        day: pair_in(text, 8),
    }
}

// A real day and byte 10 at the start of the text, which begins at place `at`: written, the numbers there are what stands there.
fn day(text: &[u8], at: usize) -> Option<Line<Day>>
    requires { at + length text.now < 2 ^ 63 }
    ensures { result ≡ day_at at text.now }
{
    if text.len() < 11 {
        return None;
    }
    let d = day_in(text);
    if !calendar::is_real(d) {
        return None;
    }
    if !text_lines::starts(&day_text(d), text) {
        return None;
    }
    Some(Line {
        value: d,
        next: at + 11,
    })
}

// The line at place `at`: the name, a real day, and byte 10.
pub fn day_line(name: &[u8], text: &[u8], at: usize) -> Option<Line<Day>>
    ensures { result ≡ day_line name.now text.now at }
{
    if text.len() < at {
        return None;
    }
    if !text_lines::starts(name, &text[at..]) {
        return None;
    }
    let start = at + name.len();
    day(&text[start..], start)
}

// Whether the text begins with one of the two names.
fn date_begins(text: &[u8]) -> bool
    ensures { result ≡ date_begins text.now }
{
    text_lines::starts(b"open=", text) || text_lines::starts(b"close=", text)
}

// The dates at place `at`: two lines, or none where no line of the two names begins.
pub fn season_lines(text: &[u8], at: usize) -> Option<Season>
    ensures { result ≡ season_lines text.now at }
{
    let none = calendar::none();
    if text.len() < at {
        return Some(Season {
            opening: none,
            closing: none,
            next: at,
        });
    }
    if !date_begins(&text[at..]) {
        return Some(Season {
            opening: none,
            closing: none,
            next: at,
        });
    }
    let Some(opening) = day_line(b"open=", text, at) else {
        return None;
    };
    let Some(closing) = day_line(b"close=", text, opening.next) else {
        return None;
    };
    Some(Season {
        opening: opening.value,
        closing: closing.value,
        next: closing.next,
    })
}

// Writes the line of a name and a day from place `at` on, and gives the place after it.
pub fn put_day_line(out: &mut [u8], at: usize, name: &[u8], d: Day) -> usize
    requires { at + length (day_line_text name.now d) ≤ length out.old }
    ensures value { result ≡ at + length (day_line_text name.now d) }
    ensures out_after { out.new ≡ put at (day_line_text name.now d) out.old }
{
    let text = day_text(d);
    let start = text_lines::put_bytes(out, at, name);
    text_lines::put_bytes(out, start, &text)
}

// Writes the two lines from place `at` on, none without dates, and gives the place after them.
pub fn put_season(out: &mut [u8], at: usize, opening: Day, closing: Day) -> usize
    requires { at + length (season_text opening closing) ≤ length out.old }
    ensures value { result ≡ at + length (season_text opening closing) }
    ensures out_after { out.new ≡ put at (season_text opening closing) out.old }
{
    if calendar::are_none(opening, closing) {
        return at;
    }
    let next = put_day_line(out, at, b"open=", opening);
    put_day_line(out, next, b"close=", closing)
}

// The bytes of the two lines, worked out beside their writing: a text that does not fit is refused before a byte is written.
pub fn season_length(opening: Day, closing: Day) -> usize
    ensures { result ≡ length (season_text opening closing) }
{
    if calendar::are_none(opening, closing) {
        return 0;
    }
    33
}
