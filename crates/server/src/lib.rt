// The answering end, a server's (01: mirror): a query is checked, and answered from the store.
#![tactic(auto)]

ghost use Rattle.std.specs.Prelude.{◌≡◌};
ghost use Rattle.codes.specs.Codes.{scheme_of};
ghost use Rattle.server.specs.Answering.{DidAnswer, answer_verdict, answering};

use calendar::Day;
use catalogue::Catalogue;
use refusal::Refusal;

// Whether the query is answered today, from a store of `stored` bytes into a buffer of `room` bytes.
fn verdict(
    c: Catalogue,
    today: Day,
    server: usize,
    stored: usize,
    query: &[u8],
    room: usize,
) -> Result<(), Refusal>
    ensures { result ≡ answer_verdict scheme_of c today server stored query.now room }
{
    let sizes = catalogue::sizes(c)?;
    catalogue::day_verdict(c, today)?;
    if c.servers <= server {
        return Err(Refusal::Server);
    }
    if !codes::admits(c, server, query) {
        return Err(Refusal::Query);
    }
    if stored != sizes.store {
        return Err(Refusal::StoreLength);
    }
    if room < codes::answer_length(c, query) {
        return Err(Refusal::Room);
    }
    Ok(())
}

// Writes the answer to the query at the start of `out`, and gives its length.
pub fn answer(
    c: Catalogue,
    today: Day,
    server: usize,
    store: &[u8],
    query: &[u8],
    out: &mut [u8],
) -> Result<usize, Refusal>
    ensures { DidAnswer (answering scheme_of c today server store.now query.now out.old) result out.new }
{
    verdict(c, today, server, store.len(), query, out.len())?;
    codes::answer(c, server, store, query, out);
    Ok(codes::answer_length(c, query))
}
