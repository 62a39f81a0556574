// The calls, each printed on a line of its own: what it gave, the saved answer and a sum of the store as it left them, and what the answering end then
// gives for the query.
use catalogue::Catalogue;
use correction::Edit;
use refusal::Refusal;
use trial_bytes::draw;
use trials::show;

// A: the saved answer made by the answering end on the opening day, where it has room.
fn answer_of(c: Catalogue, server: usize, store: &[u8], query: &[u8], answer: &mut [u8]) {
    match server::answer(c, c.opening, server, store, query, answer) {
        Ok(_) => (),
        Err(_) => (),
    }
}

// Prints what the answering end gives on the opening day, the number and then the bytes.
fn afresh(c: Catalogue, server: usize, store: &[u8], query: &[u8], fresh: &mut [u8]) {
    let gave = server::answer(c, c.opening, server, store, query, fresh);
    show::outcome(gave);
    if let Ok(length) = gave {
        let end = draw::at_most(length, fresh.len());
        show::bytes(&fresh[..end]);
    }
    show::end();
}

// Prints what a call gave, and the answer and the store that it left.
fn shown(letter: u8, gave: Result<(), Refusal>, answer: &[u8], store: &[u8]) {
    show::letter(letter);
    show::verdict(gave);
    show::bytes(answer);
    show::total(show::sum(0, store));
}

// X: the byte of the store set, and the saved answer updated.
fn correct(
    c: Catalogue,
    server: usize,
    store: &mut [u8],
    query: &[u8],
    edit: Edit,
    answer: &mut [u8],
    fresh: &mut [u8],
) {
    let gave = correction::correct(c, server, store, query, edit, answer);
    shown(b'X', gave, answer, store);
    afresh(c, server, store, query, fresh);
}

// Y: the saved answer updated, and no more.
fn correct_answer(
    c: Catalogue,
    server: usize,
    store: &[u8],
    query: &[u8],
    edit: Edit,
    answer: &mut [u8],
    fresh: &mut [u8],
) {
    let gave = correction::correct_answer(c, server, store, query, edit, answer);
    shown(b'Y', gave, answer, store);
    afresh(c, server, store, query, fresh);
}

// A line that makes a call, with all that it is lent.
pub fn on_call(
    letter: u8,
    c: Catalogue,
    server: usize,
    store: &mut [u8],
    query: &[u8],
    edit: Edit,
    answer: &mut [u8],
    fresh: &mut [u8],
) {
    match letter {
        b'X' => correct(c, server, store, query, edit, answer, fresh),
        b'Y' => correct_answer(c, server, store, query, edit, answer, fresh),
        _ => answer_of(c, server, store, query, answer),
    }
}
