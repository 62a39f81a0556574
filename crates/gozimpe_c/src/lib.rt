// The calls of `gozimpe` as an archive for C, under the same names and with the same clauses: each is the library's call. include/gozimpe.h has them.
#![tactic(auto)]

ghost use Rattle.std.specs.Prelude.{◌≡◌};
ghost use Rattle.gozimpe.specs.Host.{signed, day_of, answering_text, longest_answer};
ghost use Rattle.gozimpe.specs.Correcting.{signed_verdict, edit_of, correcting_text, correcting_answer_text};

// Answers one request today, which is year, month and day: the answer's length, or minus the refusal's number.
#[unsafe(no_mangle)]
pub extern "C" fn gozimpe_answer(
    catalogue: &[u8],
    year: u32,
    month: u32,
    day: u32,
    mirror: u64,
    store: &[u8],
    request: &[u8],
    answer: &mut [u8],
) -> i64
    ensures value { result
        ≡ signed (answering_text catalogue.now (day_of year month day) mirror
        store.now request.now answer.old).outcome }
    ensures answer_after { answer.new
        ≡ (answering_text catalogue.now (day_of year month day) mirror
        store.now request.now answer.old).buffer }
{
    gozimpe::gozimpe_answer(catalogue, year, month, day, mirror, store, request, answer)
}

// The length of the longest answer under a catalogue, or minus the refusal's number.
#[unsafe(no_mangle)]
pub extern "C" fn gozimpe_longest_answer(catalogue: &[u8]) -> i64
    ensures { result ≡ signed (longest_answer catalogue.now) }
{
    gozimpe::gozimpe_longest_answer(catalogue)
}

// Sets byte `byte` of piece `piece` of pack `pack` in the store, and no other, to `value`, and brings the saved answer up to date. Where several answers are
// saved, all but one are corrected by `gozimpe_correct_answer` first.
#[unsafe(no_mangle)]
pub extern "C" fn gozimpe_correct(
    catalogue: &[u8],
    mirror: u64,
    store: &mut [u8],
    request: &[u8],
    answer: &mut [u8],
    pack: u64,
    piece: u64,
    byte: u64,
    value: u8,
) -> i64
    ensures value { result
        ≡ signed_verdict (correcting_text catalogue.now mirror store.old request.now
        (edit_of pack piece byte value) answer.old).verdict }
    ensures store_after { store.new
        ≡ (correcting_text catalogue.now mirror store.old request.now
        (edit_of pack piece byte value) answer.old).store }
    ensures answer_after { answer.new
        ≡ (correcting_text catalogue.now mirror store.old request.now
        (edit_of pack piece byte value) answer.old).answer }
{
    gozimpe::correcting::gozimpe_correct(
        catalogue, mirror, store, request, answer, pack, piece, byte, value,
    )
}

// Brings a saved answer up to date with an edit from the store as it was before the edit, which stays. Any number of saved answers are corrected in this way,
// in any order, before `gozimpe_correct` sets the store.
#[unsafe(no_mangle)]
pub extern "C" fn gozimpe_correct_answer(
    catalogue: &[u8],
    mirror: u64,
    store: &[u8],
    request: &[u8],
    answer: &mut [u8],
    pack: u64,
    piece: u64,
    byte: u64,
    value: u8,
) -> i64
    ensures value { result
        ≡ signed_verdict (correcting_answer_text catalogue.now mirror store.now request.now
        (edit_of pack piece byte value) answer.old).verdict }
    ensures answer_after { answer.new
        ≡ (correcting_answer_text catalogue.now mirror store.now request.now
        (edit_of pack piece byte value) answer.old).answer }
{
    gozimpe::correcting::gozimpe_correct_answer(
        catalogue, mirror, store, request, answer, pack, piece, byte, value,
    )
}
