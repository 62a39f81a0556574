// The lines of a catalogue's text that have a word behind their names: the first, of its code, and that of its sum. Read at their places, and
// as they are written.
ghost use Rattle.std.specs.Prelude.{◌≡◌};
ghost use Rattle.catalogue_text.specs.Text.{code_text, sum_text};
ghost use Rattle.catalogue_text.specs.Parsing.{code_line, sum_line};

use catalogue::Code;
use symbol::Operation;
use text_lines::Line;

// The first line of a catalogue, by its code.
#[tactic(auto, unfolding(crate::specs::Parsing::code_line))]
pub fn code_line(text: &[u8]) -> Option<Line<Code>>
    ensures { result ≡ code_line text.now }
{
    if text_lines::starts(code_text(Code::Short), text) {
        return Some(Line {
            value: Code::Short,
            next: code_text(Code::Short).len(),
        });
    }
    if text_lines::starts(code_text(Code::Even), text) {
        return Some(Line {
            value: Code::Even,
            next: code_text(Code::Even).len(),
        });
    }
    if text_lines::starts(code_text(Code::Turn), text) {
        return Some(Line {
            value: Code::Turn,
            next: code_text(Code::Turn).len(),
        });
    }
    if text_lines::starts(code_text(Code::Round), text) {
        return Some(Line {
            value: Code::Round,
            next: code_text(Code::Round).len(),
        });
    }
    None
}

// The line of the sum at place `at`: exclusive or if no line of that name begins there.
#[tactic(auto, unfolding(crate::specs::Parsing::sum_line))]
pub fn sum_line(text: &[u8], at: usize) -> Option<Line<Operation>>
    ensures { result ≡ sum_line text.now at }
{
    if text.len() < at {
        return Some(Line {
            value: Operation::ExclusiveOr,
            next: at,
        });
    }
    if !text_lines::starts(b"sum=", &text[at..]) {
        return Some(Line {
            value: Operation::ExclusiveOr,
            next: at,
        });
    }
    if text_lines::starts(sum_text(Operation::Addition), &text[at..]) {
        return Some(Line {
            value: Operation::Addition,
            next: at + sum_text(Operation::Addition).len(),
        });
    }
    None
}

// The first line of a code.
pub fn code_text(code: Code) -> &'static [u8]
    ensures { result.now ≡ code_text code }
{
    match code {
        Code::Short => b"code=short\n",
        Code::Even => b"code=even\n",
        Code::Turn => b"code=turn\n",
        Code::Round => b"code=round\n",
    }
}

// The line of a sum; exclusive or has none.
pub fn sum_text(sum: Operation) -> &'static [u8]
    ensures { result.now ≡ sum_text sum }
{
    match sum {
        Operation::ExclusiveOr => b"",
        Operation::Addition => b"sum=add\n",
    }
}
