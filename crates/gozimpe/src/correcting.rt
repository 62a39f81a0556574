// One corrected byte, for the host program of a mirror (02, item 13). Beside the names of lib.rt, pack is the message and piece the symbol. A call gives 0, or
// minus the refusal's number.
ghost use Rattle.std.specs.Prelude.{◌≡◌};
ghost use Rattle.gozimpe.specs.Correcting.{signed_verdict, edit_of, correcting_text, correcting_answer_text};

use correction::Edit;
use refusal::Refusal;

// A verdict as a number: 0, or minus the refusal's.
fn told(verdict: Result<(), Refusal>) -> i64
    ensures { result ≡ signed_verdict verdict }
{
    match verdict {
        Ok(()) => 0,
        Err(refusal) => crate::minus(refusal),
    }
}

// The edit of four numbers.
fn edit_of(pack: u64, piece: u64, byte: u64, value: u8) -> Edit
    ensures { result ≡ edit_of pack piece byte value }
{
    Edit {
        message: pack as usize,
        symbol: piece as usize,
        byte: byte as usize,
        value,
    }
}

// Sets byte `byte` of piece `piece` of pack `pack` in the store, and no other, to `value`, and brings the saved answer up to date. Where several answers are
// saved, all but one are corrected by `gozimpe_correct_answer` first.
pub fn gozimpe_correct(
    catalogue: &[u8],
    mirror: u64,
    store: &mut [u8],
    request: &[u8],
    answer: &mut [u8],
    pack: u64,
    piece: u64,
    byte: u64,
    value: u8,
) -> i64
    ensures value { result
        ≡ signed_verdict (correcting_text catalogue.now mirror store.old request.now
        (edit_of pack piece byte value) answer.old).verdict }
    ensures store_after { store.new
        ≡ (correcting_text catalogue.now mirror store.old request.now
        (edit_of pack piece byte value) answer.old).store }
    ensures answer_after { answer.new
        ≡ (correcting_text catalogue.now mirror store.old request.now
        (edit_of pack piece byte value) answer.old).answer }
{
    let reading = catalogue_text::read(catalogue);
    if let Err(fault) = reading.verdict {
        return crate::minus(fault);
    }
    let c = reading.catalogue;
    let edit = edit_of(pack, piece, byte, value);
    told(correction::correct(c, mirror as usize, store, request, edit, answer))
}

// A call beside `gozimpe_correct`, and not one of both, for the C interface: this one is lent a store that is `const`.
// Brings a saved answer up to date with an edit from the store as it was before the edit, which stays. Any number of saved answers are corrected in this way,
// in any order, before `gozimpe_correct` sets the store.
pub fn gozimpe_correct_answer(
    catalogue: &[u8],
    mirror: u64,
    store: &[u8],
    request: &[u8],
    answer: &mut [u8],
    pack: u64,
    piece: u64,
    byte: u64,
    value: u8,
) -> i64
    ensures value { result
        ≡ signed_verdict (correcting_answer_text catalogue.now mirror store.now request.now
        (edit_of pack piece byte value) answer.old).verdict }
    ensures answer_after { answer.new
        ≡ (correcting_answer_text catalogue.now mirror store.now request.now
        (edit_of pack piece byte value) answer.old).answer }
{
    let reading = catalogue_text::read(catalogue);
    if let Err(fault) = reading.verdict {
        return crate::minus(fault);
    }
    let c = reading.catalogue;
    let edit = edit_of(pack, piece, byte, value);
    told(correction::correct_answer(c, mirror as usize, store, request, edit, answer))
}
