// The lines of a catalogue's lengths, `length=` (document 02, item 6): one for each message, or none. Read at a place of a text, and written at a place
// of a buffer.
#![tactic(auto)]

ghost use Rattle.std.specs.Prelude.{◌≡◌, ◌+◌, ◌≤◌, length, drop};
ghost use Rattle.lists.specs.Parts.{put};
ghost use Rattle.text_lines.specs.Lines.{begins};
ghost use Rattle.lengths.specs.Lengths.{numbers_of};
ghost use Rattle.length_text.specs.LengthLines.{length_name, length_text, numbers_at, kept_lines, length_lines};

use lengths::Lengths;

// The lengths at a place of the text, zeros where there are none, and where their lines end.
#[derive(Clone, Copy)]
pub struct LengthLines {
    pub lengths: Lengths,
    pub next: usize,
}

// Whether a line of a length begins at place `at`.
fn line_begins(text: &[u8], at: usize) -> bool
    ensures { result ≡ begins length_name (drop at text.now) }
{
    at <= text.len() && text_lines::starts(b"length=", &text[at..])
}

// The numbers of `count` lines at place `at`, as far as there are places for them.
fn counted(text: &[u8], at: usize, count: usize) -> Option<LengthLines>
    ensures { result ≡ kept_lines (numbers_at count text.now at) }
{
    let mut places: [u32; 32] = [0; 32];
    let mut next = at;
    for i in 0..count {
        let Some(line) = text_lines::number_line(7, b"length=", text, next) else {
            return None;
        };
        if i < 32 {
            places[i] = line.value as u32;
        }
        next = line.next;
    }
    Some(LengthLines {
        lengths: Lengths {
            given: 0 < count,
            places,
        },
        next,
    })
}

// The lengths at place `at` of a text with k messages: k lines, or none where no line of that name begins.
pub fn length_lines(text: &[u8], at: usize, k: usize) -> Option<LengthLines>
    ensures { result ≡ length_lines k text.now at }
{
    if !line_begins(text, at) {
        return Some(LengthLines {
            lengths: lengths::none(),
            next: at,
        });
    }
    let found = counted(text, at, k)?;
    if line_begins(text, found.next) {
        return None;
    }
    Some(found)
}

// How many lines k messages have.
fn line_count(l: Lengths, k: usize) -> usize
    ensures value { result ≡ length (numbers_of k l) }
    ensures upper_bound { result ≤ 32 }
{
    if !l.given {
        return 0;
    }
    k.min(32)
}

// Writes the lines from place `at` on, none without lengths, and gives the place after them.
pub fn put_lengths(out: &mut [u8], at: usize, l: Lengths, k: usize) -> usize
    requires { at + length (length_text (numbers_of k l)) ≤ length out.old }
    ensures value { result ≡ at + length (length_text (numbers_of k l)) }
    ensures out_after { out.new ≡ put at (length_text (numbers_of k l)) out.old }
{
    let lines = line_count(l, k);
    let mut next = at;
    for n in &l.places[..lines] {
        next = text_lines::put_line(out, next, b"length=", *n as usize);
    }
    next
}

// The bytes of the lines, worked out beside their writing: a text that does not fit is refused before a byte is written.
pub fn lengths_length(l: Lengths, k: usize) -> usize
    ensures value { result ≡ length (length_text (numbers_of k l)) }
    ensures upper_bound { result ≤ 576 }
{
    let lines = line_count(l, k);
    let mut total: usize = 0;
    for n in &l.places[..lines] {
        total += text_lines::line_length(b"length=", *n as usize);
    }
    total
}
