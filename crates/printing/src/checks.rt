// What can be said of an input before its key's entries are read.
ghost use Rattle.std.specs.Prelude.{◌≡◌};
ghost use Rattle.refusal.specs.Chain.{chain};
ghost use Rattle.codes.specs.Codes.{scheme_of};
ghost use Rattle.number_lists.specs.NumberLists.{scan_of};
ghost use Rattle.printing.specs.Input.{key_line};
ghost use Rattle.printing.specs.Steps.{key_faults, check_verdict, value_by};

use catalogue::Catalogue;
use number_lists::Scanned;
use refusal::Refusal;

// What the key's line at place `at` says, which is the last.
pub fn scan_key(text: &[u8], at: usize) -> Option<Scanned>
    ensures { result ≡ scan_of (key_line text.now at) }
{
    if text.len() < at {
        return None;
    }
    if !text_lines::starts(b"key=", &text[at..]) {
        return None;
    }
    number_lists::scan(text, at + 4)
}

// Whether the wanted message is there, and the key is due that has so many numbers, all bytes or not.
// If so, the query's length.
fn check_key(
    messages: usize,
    wanted: usize,
    due: usize,
    count: usize,
    bytes: bool,
    query: usize,
) -> Result<usize, Refusal>
    ensures { result ≡ value_by (chain (key_faults messages wanted due count bytes)) query }
{
    if messages <= wanted {
        return Err(Refusal::Wanted);
    }
    if count != due {
        return Err(Refusal::KeyLength);
    }
    if !bytes {
        return Err(Refusal::KeyEntry);
    }
    Ok(query)
}

// What can be said of an input without the key's entries: a refusal, or the length of a query.
pub fn check(c: Catalogue, wanted: usize, count: usize, bytes: bool) -> Result<usize, Refusal>
    ensures { result ≡ value_by (check_verdict scheme_of c wanted count bytes) (scheme_of c).sizes.query }
{
    let sizes = catalogue::sizes(c)?;
    check_key(c.messages, wanted, sizes.key, count, bytes, sizes.query)
}
