// One corrected byte (02, item 13): a byte of the store is set, and saved answers are brought up to date with it. No answer is worked out afresh: of the store
// the one byte is read, of an answer the one word.
#![tactic(auto)]

ghost use Rattle.std.specs.Prelude.{◌≡◌, true, ℕ, ◌<◌, length, Ok};
ghost use Rattle.symbol.specs.Operations.{sum_of};
ghost use Rattle.catalogue.specs.Catalogue.{Admitted};
ghost use Rattle.codes.specs.Codes.{scheme_of};
ghost use Rattle.scheme.specs.Asked.{place_naming};
ghost use Rattle.correction.specs.Moved.{shift_of, moved};
ghost use Rattle.codes.specs.Asked.{rows_of};
ghost use Rattle.correction.specs.Correction.{EditIn, place_of};
ghost use Rattle.correction.specs.Calls.{outside_of, correct_verdict, verdict_of, DidCorrect, correcting, correcting_answer};

use catalogue::Catalogue;
use refusal::Refusal;
use symbol::Operation;

// One corrected byte (02: pack, piece, byte of the piece, new value).
#[derive(Clone, Copy)]
pub struct Edit {
    pub message: usize,
    pub symbol: usize,
    pub byte: usize,
    pub value: u8,
}

// Moves a symbol by the new value of one of its bytes, less the old one: of its bytes, the two of that word are looked at.
fn move_symbol(op: Operation, byte: usize, new: u8, old: u8, part: &mut [u8])
    requires { byte < length part.old }
    ensures { part.new
        ≡ (sum_of op).plus part.old (shift_of (sum_of op) (length part.old) byte new old) }
{
    let offset = byte % 2;
    let at = byte / 2 * 2;
    let size = 2_usize.min(part.len() - at);
    let end = at + size;
    let shift = shift_of(op, offset, new, old);
    symbol::combine(op, &mut part[at..end], &shift[..size]);
}

// The new value less the old one, as one byte of two.
fn shift_of(op: Operation, offset: usize, new: u8, old: u8) -> [u8; 2]
    requires { offset < 2 }
    ensures { result ≡ shift_of (sum_of op) 2 offset new old }
{
    let mut shift = [0u8; 2];
    let mut gone = [0u8; 2];
    shift[offset] = new;
    gone[offset] = old;
    symbol::subtract(op, &mut shift, &gone);
    shift
}

// Moves the part of the answer that answers the row which names the edit's symbol by the new value less the old, if a row names it.
fn update(c: Catalogue, server: usize, query: &[u8], edit: Edit, old: u8, answer: &mut [u8])
    requires admitted { Admitted c }
    requires query_value { (scheme_of c).admits server query.now ≡ true }
    requires edit_in { EditIn c edit }
    requires answer_len { length answer.old ≡ (scheme_of c).answer_length query.now }
    ensures { answer.new
        ≡ moved (sum_of c.sum) c.symbol (place_naming c.symbol edit.message edit.symbol (rows_of c query.now))
        (shift_of (sum_of c.sum) c.symbol edit.byte edit.value old) answer.old }
{
    let Some(at) = codes::locate(c, server, query, edit.message, edit.symbol) else {
        return;
    };
    let end = at + c.symbol;
    move_symbol(c.sum, edit.byte, edit.value, old, &mut answer[at..end]);
}

// The place of the edit's byte in the store.
fn place_of(c: Catalogue, edit: Edit) -> usize
    requires admitted { Admitted c }
    requires edit_in { EditIn c edit }
    ensures { result ≡ place_of c edit }
{
    let sizes = catalogue::sizes(c).unwrap();
    (edit.message * sizes.symbols + edit.symbol) * c.symbol + edit.byte
}

// Whether the edit is of no byte of a store of so many messages, symbols in a message and bytes in a symbol.
fn is_outside(messages: usize, symbols: usize, size: usize, edit: Edit) -> bool
    ensures { result ≡ outside_of messages symbols size edit }
{
    messages <= edit.message || symbols <= edit.symbol || size <= edit.byte
}

// Whether the byte is corrected, in a store of `stored` bytes, for a saved answer of `saved` bytes.
fn verdict(
    c: Catalogue,
    server: usize,
    stored: usize,
    query: &[u8],
    edit: Edit,
    saved: usize,
) -> Result<(), Refusal>
    ensures { result ≡ correct_verdict c server stored query.now edit saved }
{
    let sizes = catalogue::sizes(c)?;
    if c.servers <= server {
        return Err(Refusal::Server);
    }
    if !codes::admits(c, server, query) {
        return Err(Refusal::Query);
    }
    if stored != sizes.store {
        return Err(Refusal::StoreLength);
    }
    if is_outside(c.messages, sizes.symbols, c.symbol, edit) {
        return Err(Refusal::EditPlace);
    }
    if saved != codes::answer_length(c, query) {
        return Err(Refusal::AnswerLength);
    }
    Ok(())
}

// Moves the saved answer by an edit, from the store as it was before the edit, which stays, and gives the place of the edit's byte in the store. It is
// compiled into both calls: `correct` does not look the place up once more, and needs no stack for `correct_answer`.
#[inline(always)]
fn corrected(
    c: Catalogue,
    server: usize,
    store: &[u8],
    query: &[u8],
    edit: Edit,
    answer: &mut [u8],
) -> Result<usize, Refusal>
    ensures did { DidCorrect (correcting_answer c server store.now query.now edit answer.old)
        (verdict_of result) store.now answer.new }
    ensures place { (place : ℕ) → result ≡ Ok place → place ≡ place_of c edit }
{
    verdict(c, server, store.len(), query, edit, answer.len())?;
    let place = place_of(c, edit);
    update(c, server, query, edit, store[place], answer);
    Ok(place)
}

// Brings a saved answer up to date with an edit, from the store as it was before the edit, which stays. An operator who has saved several answers corrects
// all but one of them in this way, in any order, and the last with `correct`, which sets the byte of the store too; then each is what answering gives afresh
// (`calls-fresh` of correction_laws). Once the byte is set, the old value is gone.
pub fn correct_answer(
    c: Catalogue,
    server: usize,
    store: &[u8],
    query: &[u8],
    edit: Edit,
    answer: &mut [u8],
) -> Result<(), Refusal>
    ensures { DidCorrect (correcting_answer c server store.now query.now edit answer.old)
        result store.now answer.new }
{
    corrected(c, server, store, query, edit, answer)?;
    Ok(())
}

// Sets the edit's byte of the store and no other, and brings the saved answer up to date. Where several answers are saved, this is the last call.
pub fn correct(
    c: Catalogue,
    server: usize,
    store: &mut [u8],
    query: &[u8],
    edit: Edit,
    answer: &mut [u8],
) -> Result<(), Refusal>
    ensures { DidCorrect (correcting c server store.old query.now edit answer.old)
        result store.new answer.new }
{
    let place = corrected(c, server, store, query, edit, answer)?;
    store[place] = edit.value;
    Ok(())
}
