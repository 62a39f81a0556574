// The catalogue: which code, how many servers and messages, how long a symbol, what symbols are combined by, in which season, where messages end;
// whether it is admitted, and on which days it is served, and the sizes that follow.
#![tactic(auto)]

ghost use Rattle.std.specs.Prelude.{◌≡◌, true};
ghost use Rattle.catalogue.specs.Catalogue.{numbers_fit, dates_fit, in_bounds, whole_words, catalogue_verdict, zero_catalogue, sizes_of, measured_of};
ghost use Rattle.catalogue.specs.Days.{day_verdict};

use calendar::Day;
use lengths::Lengths;
use parameters::Sizes;
use refusal::Refusal;
use symbol::Operation;

// The code that every fetch from the catalogue uses.
#[derive(Clone, Copy, PartialEq, Eq)]
pub enum Code {
    // The code of Tian, Sun and Chen.
    Short,
    // The code of Sun and Jafar.
    Even,
    // The code of Tian, Sun and Chen with a turn of the servers in the key (02, item 4: `code=turn`).
    Turn,
    // The code of Tian, Sun and Chen block by block, each of its keys for one block (02, item 8: `code=round`).
    Round,
}

#[derive(Clone, Copy)]
pub struct Catalogue {
    pub code: Code,
    // What symbols are combined by (02, item 2: `sum=`).
    pub sum: Operation,
    // The season (02, item 1: `open=` and `close=`): its first day, and the first day after it. Zeros in both where there are no dates.
    pub opening: Day,
    pub closing: Day,
    // Where the messages end (02, item 6: `length=`).
    pub lengths: Lengths,
    // N (01: mirrors).
    pub servers: usize,
    // K (01: packs).
    pub messages: usize,
    // S, the bytes of a symbol (01: piece).
    pub symbol: usize,
}

// Whether the numbers of servers, messages and a symbol's bytes are within the bounds of the code.
fn numbers_fit(c: Catalogue) -> bool
    ensures { result ≡ numbers_fit c }
{
    match c.code {
        Code::Short => parameters::short::fits(c.servers, c.messages, c.symbol),
        Code::Even => parameters::even::fits(c.servers, c.messages, c.symbol),
        Code::Turn => parameters::short::fits(c.servers, c.messages, c.symbol),
        Code::Round => parameters::round::fits(c.servers, c.messages, c.symbol),
    }
}

// Whether two dates can be a season's: none, or two real days, of which the opening comes first.
fn dates_fit(opening: Day, closing: Day) -> bool
    ensures { result ≡ dates_fit opening closing }
{
    if calendar::are_none(opening, closing) {
        return true;
    }
    if !calendar::is_real(opening) {
        return false;
    }
    if !calendar::is_real(closing) {
        return false;
    }
    calendar::is_before(opening, closing)
}

// The sizes that follow from numbers within their bounds.
fn sizes_of(c: Catalogue) -> Sizes
    requires { numbers_fit c ≡ true }
    ensures { result ≡ sizes_of c }
{
    match c.code {
        Code::Short => parameters::short::sizes(c.servers, c.messages, c.symbol),
        Code::Even => parameters::even::sizes(c.servers, c.messages, c.symbol),
        Code::Turn => parameters::turn::sizes(c.servers, c.messages, c.symbol),
        Code::Round => parameters::round::sizes(c.servers, c.messages, c.symbol),
    }
}

// Whether the catalogue keeps its bounds.
fn in_bounds(c: Catalogue) -> bool
    ensures { result ≡ in_bounds c }
{
    if !numbers_fit(c) {
        return false;
    }
    if !dates_fit(c.opening, c.closing) {
        return false;
    }
    let sizes = sizes_of(c);
    lengths::fit(c.lengths, c.messages, sizes.message)
}

// Whether symbols of s bytes are whole words, where words are added.
fn whole_words(sum: Operation, s: usize) -> bool
    ensures { result ≡ whole_words sum s }
{
    match sum {
        Operation::ExclusiveOr => true,
        Operation::Addition => s % 2 == 0,
    }
}

// Whether the catalogue is admitted: it breaks none of its bounds, has more than one message, and adds only whole words.
pub fn verdict(c: Catalogue) -> Result<(), Refusal>
    ensures { result ≡ catalogue_verdict c }
{
    if !in_bounds(c) {
        return Err(Refusal::Bounds);
    }
    if c.messages == 1 {
        return Err(Refusal::OneMessage);
    }
    if !whole_words(c.sum, c.symbol) {
        return Err(Refusal::OddSymbol);
    }
    Ok(())
}

// Whether today is a day on which the catalogue is served: any day where it has no dates, else a real one in its season.
pub fn day_verdict(c: Catalogue, today: Day) -> Result<(), Refusal>
    ensures { result ≡ day_verdict c today }
{
    if calendar::are_none(c.opening, c.closing) {
        return Ok(());
    }
    if !calendar::is_real(today) {
        return Err(Refusal::UnrealDay);
    }
    if calendar::in_season(c.opening, c.closing, today) {
        return Ok(());
    }
    Err(Refusal::OutOfSeason)
}

// The catalogue of zeros, its code short, its sum exclusive or.
pub fn zero() -> Catalogue
    ensures { result ≡ zero_catalogue }
{
    Catalogue {
        code: Code::Short,
        sum: Operation::ExclusiveOr,
        opening: calendar::none(),
        closing: calendar::none(),
        lengths: lengths::none(),
        servers: 0,
        messages: 0,
        symbol: 0,
    }
}

// The sizes that follow from the catalogue, or why it is refused.
pub fn sizes(c: Catalogue) -> Result<Sizes, Refusal>
    ensures { result ≡ measured_of c }
{
    verdict(c)?;
    Ok(sizes_of(c))
}
