// All lines of a catalogue's text, written one after another, and how long they are. Lengths are worked out beside the writing, and not by it: a text
// that does not fit is refused before a byte is written (`Wrote`).
ghost use Rattle.std.specs.Prelude.{◌≡◌, ◌≤◌, length};
ghost use Rattle.lists.specs.Parts.{put};
ghost use Rattle.catalogue_text.specs.Text.{head_text, text_of};

use crate::named;
use catalogue::Catalogue;

// Writes the lines in front of those of the lengths at the start, and gives the place after them.
fn put_head(out: &mut [u8], c: Catalogue) -> usize
    requires { length (head_text c) ≤ length out.old }
    ensures value { result ≡ length (head_text c) }
    ensures out_after { out.new ≡ put 0 (head_text c) out.old }
{
    let a = text_lines::put_bytes(out, 0, named::code_text(c.code));
    let b = text_lines::put_line(out, a, b"mirrors=", c.servers);
    let d = text_lines::put_line(out, b, b"packs=", c.messages);
    let e = text_lines::put_line(out, d, b"piece=", c.symbol);
    let f = season_text::put_season(out, e, c.opening, c.closing);
    text_lines::put_bytes(out, f, named::sum_text(c.sum))
}

// Writes the text at the start, and gives its length.
pub fn put_text(out: &mut [u8], c: Catalogue) -> usize
    requires { length (text_of c) ≤ length out.old }
    ensures value { result ≡ length (text_of c) }
    ensures out_after { out.new ≡ put 0 (text_of c) out.old }
{
    let g = put_head(out, c);
    length_text::put_lengths(out, g, c.lengths, c.messages)
}

// The bytes of the lines in front of those of the lengths.
fn head_length(c: Catalogue) -> usize
    ensures value { result ≡ length (head_text c) }
    ensures upper_bound { result ≤ 200 }
{
    let a = named::code_text(c.code).len();
    let b = a + text_lines::line_length(b"mirrors=", c.servers);
    let d = b + text_lines::line_length(b"packs=", c.messages);
    let e = d + text_lines::line_length(b"piece=", c.symbol);
    let f = e + season_text::season_length(c.opening, c.closing);
    f + named::sum_text(c.sum).len()
}

// The bytes of the catalogue's text.
pub fn text_length(c: Catalogue) -> usize
    ensures { result ≡ length (text_of c) }
{
    head_length(c) + length_text::lengths_length(c.lengths, c.messages)
}
