// The parts of a session that are lists: the marks and the meters of its servers, the places of its key, and the slots of its answer buffer.
#![tactic(auto)]

ghost use Rattle.std.specs.Prelude.{◌≡◌, ◌+◌, ◌≤◌, ◌<◌, ltb, length};
ghost use Rattle.lists.specs.Parts.{put};
ghost use Rattle.session_parts.specs.Marks.{mark_good, marks_good, all_taken};
ghost use Rattle.session_parts.specs.Meters.{no_meters, counted, count_issued, count_taken, meter_full, sent_good};
ghost use Rattle.session_parts.specs.Places.{padded_key};

// What a fetch has sent and received, for each server.
#[derive(Clone, Copy)]
pub struct Meters {
    // The bytes of the queries issued to it.
    pub sent: [u32; 16],
    // The bytes of the answer taken from it.
    pub got: [u32; 16],
}

// Zeros.
#[tactic(auto, unfolding(crate::specs::Meters::no_bytes))]
pub fn no_meters() -> Meters
    ensures { result ≡ no_meters }
{
    Meters {
        sent: [0; 16],
        got: [0; 16],
    }
}

// The meters after a query of so many bytes was issued to a server. One function for each meter: one over both, told which, is no plainer.
pub fn count_issued(m: Meters, server: usize, bytes: usize) -> Meters
    requires server_bound { server < 16 }
    requires bytes_bound { counted m.sent server + bytes ≤ 4294967295 }
    ensures { result ≡ count_issued m server bytes }
{
    let mut out = m;
    out.sent[server] += bytes as u32;
    out
}

// The meters after an answer of so many bytes was taken from a server.
pub fn count_taken(m: Meters, server: usize, bytes: usize) -> Meters
    requires server_bound { server < 16 }
    requires bytes_bound { counted m.got server + bytes ≤ 4294967295 }
    ensures { result ≡ count_taken m server bytes }
{
    let mut out = m;
    out.got[server] += bytes as u32;
    out
}

// Whether a meter that says so much would pass its most.
fn passes(sent: u32, query: usize) -> bool
    requires { query ≤ 2048 }
    ensures { result ≡ ltb 4294967295 (sent + query) }
{
    4294967295 < sent as usize + query
}

// Whether a server's meter would pass its most by a query of so many bytes.
pub fn meter_full(m: Meters, server: usize, query: usize) -> bool
    requires server_bound { server < 16 }
    requires query_bound { query ≤ 2048 }
    ensures { result ≡ meter_full m server query }
{
    passes(m.sent[server], query)
}

// Whether some number of queries of `query` bytes each, none exactly if the mark is not set, has so many bytes. One query is the common case, and
// takes no remainder.
pub fn sent_good(query: usize, issued: bool, bytes: u32) -> bool
    requires { 0 < query }
    ensures { result ≡ sent_good query issued bytes }
{
    if !issued {
        return bytes == 0;
    }
    if bytes as usize <= query {
        return bytes as usize == query;
    }
    bytes as usize % query == 0
}

// Whether some history of calls gives a place these two marks.
fn mark_good(servers: usize, place: usize, issued: bool, taken: bool) -> bool
    ensures { result ≡ mark_good servers place issued taken }
{
    if issued { place < servers } else { !taken }
}

// Whether some history of calls gives all these marks.
pub fn marks_good<'a>(servers: usize, issued: &'a [bool; 16], taken: &'a [bool; 16]) -> bool
    ensures { result ≡ marks_good servers issued.now taken.now }
{
    for place in 0..16 {
        if !mark_good(servers, place, issued[place], taken[place]) {
            return false;
        }
    }
    true
}

// Whether the answer of each server was taken.
pub fn all_taken<'a>(servers: usize, taken: &'a [bool; 16]) -> bool
    requires { servers ≤ 16 }
    ensures { result ≡ all_taken servers taken.now }
{
    taken[..servers].iter().all(|mark| *mark)
}

// The key at the start of a session's places, the rest 0.
pub fn padded_key(key: &[u8]) -> [u8; 2048]
    requires { length key.now ≤ 2048 }
    ensures { result ≡ padded_key key.now }
{
    let mut out = [0; 2048];
    out[..key.len()].copy_from_slice(key);
    out
}

// Writes an answer into the answer buffer, from the start of its slot on; of an empty answer, nothing.
pub fn put_answer(buffer: &mut [u8], at: usize, answer: &[u8])
    requires { at + length answer.now ≤ length buffer.old }
    ensures { buffer.new ≡ put at answer.now buffer.old }
{
    let end = at + answer.len();
    buffer[at..end].copy_from_slice(answer);
}
