// The catalogue's text: reading it line by line, and writing it.
#![tactic(auto)]

ghost use Rattle.std.specs.Prelude.{◌≡◌};
ghost use Rattle.catalogue_text.specs.Parsing.{first_lines, refused_lines, catalogue_lines, lines_of, unread, read_of};
ghost use Rattle.catalogue_text.specs.Writing.{Wrote};

use catalogue::{Catalogue, Code};
use refusal::Refusal;

// The lines of the code and of the sum; those of the dates are `season_text`'s, those of the lengths `length_text`'s.
mod named;
// All lines, written one after another.
mod writing;

// The four lines that every catalogue's text begins with, and where they end.
#[derive(Clone, Copy)]
struct First {
    code: Code,
    servers: usize,
    messages: usize,
    symbol: usize,
    next: usize,
}

// The catalogue's lines at the start of a text, and where they end. A verdict beside the value and no `Result`: refused, a reading hands back a catalogue
// of zeros, a rule of the project (`refused_lines`, `unread`).
#[derive(Clone, Copy)]
pub struct Lines {
    pub verdict: Result<(), Refusal>,
    pub catalogue: Catalogue,
    pub next: usize,
}

// What a whole text says. A verdict beside the value for the same reason.
#[derive(Clone, Copy)]
pub struct Reading {
    pub verdict: Result<(), Refusal>,
    pub catalogue: Catalogue,
}

// The first four lines at the start of the text.
#[tactic(auto, unfolding(crate::specs::Parsing::first_lines))]
fn first_lines(text: &[u8]) -> Option<First>
    ensures { result ≡ first_lines text.now }
{
    let Some(code) = named::code_line(text) else {
        return None;
    };
    let Some(servers) = text_lines::number_line(5, b"mirrors=", text, code.next) else {
        return None;
    };
    let Some(messages) = text_lines::number_line(5, b"packs=", text, servers.next) else {
        return None;
    };
    let Some(symbol) = text_lines::number_line(5, b"piece=", text, messages.next) else {
        return None;
    };
    Some(First {
        code: code.value,
        servers: servers.value,
        messages: messages.value,
        symbol: symbol.value,
        next: symbol.next,
    })
}

// Lines that are refused.
fn refused(refusal: Refusal) -> Lines
    ensures { result ≡ refused_lines refusal }
{
    Lines {
        verdict: Err(refusal),
        catalogue: catalogue::zero(),
        next: 0,
    }
}

// The catalogue's lines at the start of the text, in any bounds. For an input that goes on after the catalogue.
#[tactic(auto, unfolding(crate::specs::Parsing::catalogue_lines))]
pub fn catalogue_lines(text: &[u8]) -> Lines
    ensures { result ≡ catalogue_lines text.now }
{
    let Some(first) = first_lines(text) else {
        return refused(Refusal::Text);
    };
    let Some(season) = season_text::season_lines(text, first.next) else {
        return refused(Refusal::Text);
    };
    let Some(sum) = named::sum_line(text, season.next) else {
        return refused(Refusal::Text);
    };
    let Some(found) = length_text::length_lines(text, sum.next, first.messages) else {
        return refused(Refusal::Text);
    };
    let c = Catalogue {
        code: first.code,
        sum: sum.value,
        opening: season.opening,
        closing: season.closing,
        lengths: found.lengths,
        servers: first.servers,
        messages: first.messages,
        symbol: first.symbol,
    };
    Lines {
        verdict: Ok(()),
        catalogue: c,
        next: found.next,
    }
}

// The catalogue at the start of the text, whatever follows it.
pub fn read_lines(text: &[u8]) -> Lines
    ensures { result ≡ lines_of text.now }
{
    let found = catalogue_lines(text);
    if let Err(refusal) = found.verdict {
        return refused(refusal);
    }
    if let Err(refusal) = catalogue::verdict(found.catalogue) {
        return refused(refusal);
    }
    found
}

// A reading that is refused.
fn refused_reading(refusal: Refusal) -> Reading
    ensures { result ≡ unread refusal }
{
    Reading {
        verdict: Err(refusal),
        catalogue: catalogue::zero(),
    }
}

// The catalogue whose text this is.
pub fn read(text: &[u8]) -> Reading
    ensures { result ≡ read_of text.now }
{
    let found = catalogue_lines(text);
    // Named once: where it was taken out of `found` at both places, the compiler kept one more copy on the stack.
    let catalogue = found.catalogue;
    if let Err(refusal) = found.verdict {
        return refused_reading(refusal);
    }
    let end = text.len();
    if found.next != end {
        return refused_reading(Refusal::Text);
    }
    if let Err(refusal) = catalogue::verdict(catalogue) {
        return refused_reading(refusal);
    }
    Reading {
        verdict: Ok(()),
        catalogue,
    }
}

// Writes the catalogue's text at the start of `out`, and gives its length.
pub fn write(c: Catalogue, out: &mut [u8]) -> Result<usize, Refusal>
    ensures { Wrote c out.old result out.new }
{
    catalogue::verdict(c)?;
    if out.len() < writing::text_length(c) {
        return Err(Refusal::Room);
    }
    Ok(writing::put_text(out, c))
}
