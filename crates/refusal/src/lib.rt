// The numbered refusals. What can be refused answers a `Result` with a `Refusal`.
#![tactic(auto)]

ghost use Rattle.std.specs.Prelude.{◌≡◌};
ghost use Rattle.refusal.specs.Numbers.{number_of};

// Why a call is refused, by ascending number (document 01, 'Numbers a call can give'; document 02: 13 and 14 item 1, 15 item 2, 16 item 5, 17 item 9,
// 18 item 12, 19 item 13). Which is given where several apply is another order: `order` of specs/Numbers.antt.
#[derive(Clone, Copy, Debug, PartialEq, Eq)]
pub enum Refusal {
    // 1: the catalogue's or the printer's input is not in its text form.
    Text,
    // 2: the catalogue is out of bounds.
    Bounds,
    // 3: there is no such server (01: mirror).
    Server,
    // 4: there is no such message (01: wanted pack).
    Wanted,
    // 5: the key has the wrong length.
    KeyLength,
    // 6: the key has an entry that it may not have.
    KeyEntry,
    // 7: the query (01: request) is not admitted.
    Query,
    // 8: the store has the wrong length.
    StoreLength,
    // 9: a buffer is too short.
    Room,
    // 10: the answer has another length than its query calls for.
    AnswerLength,
    // 11: take before issue, a second take, or marks or meters that no history of calls gives; of an answer unit, more bytes held than it can hold.
    History,
    // 12: an answer is missing at recovery.
    Missing,
    // 13: the day of the call is no real day of the years 2000 to 2399.
    UnrealDay,
    // 14: the day of the call is outside the catalogue's season.
    OutOfSeason,
    // 15: symbols of an odd length (01: pieces) are no rows of words, which the catalogue adds.
    OddSymbol,
    // 16: a meter would pass 4,294,967,295.
    MeterFull,
    // 17: the catalogue has one message only (01: K is 1), which no query can hide.
    OneMessage,
    // 18: the answer unit has no such register.
    Register,
    // 19: a corrected byte is no byte of the store: its message, its symbol or its place in the symbol is not there.
    EditPlace,
}

// The refusal's number. A match, and no `From`: callers know this function, and the table reads as the requirement's.
pub fn number(refusal: Refusal) -> u8
    ensures { result ≡ number_of refusal }
{
    match refusal {
        Refusal::Text => 1,
        Refusal::Bounds => 2,
        Refusal::Server => 3,
        Refusal::Wanted => 4,
        Refusal::KeyLength => 5,
        Refusal::KeyEntry => 6,
        Refusal::Query => 7,
        Refusal::StoreLength => 8,
        Refusal::Room => 9,
        Refusal::AnswerLength => 10,
        Refusal::History => 11,
        Refusal::Missing => 12,
        Refusal::UnrealDay => 13,
        Refusal::OutOfSeason => 14,
        Refusal::OddSymbol => 15,
        Refusal::MeterFull => 16,
        Refusal::OneMessage => 17,
        Refusal::Register => 18,
        Refusal::EditPlace => 19,
    }
}
