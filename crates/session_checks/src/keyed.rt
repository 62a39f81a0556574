// The calls of a catalogue's code by the key of a session: the key stands at the start of its places, and the others are not used.
ghost use Rattle.std.specs.Prelude.{◌≡◌, true, ◌*◌, ◌≤◌, ◌<◌, length};
ghost use Rattle.lists.specs.Parts.{put};
ghost use Rattle.catalogue.specs.Catalogue.{Admitted};
ghost use Rattle.codes.specs.Codes.{scheme_of};
ghost use Rattle.codes.specs.Messages.{message_length, recovered_in};
ghost use Rattle.session_checks.specs.Checks.{used_places};

use catalogue::Catalogue;
use parameters::Sizes;

// The sizes of an admitted catalogue, which has them all.
pub fn sizes_of(c: Catalogue) -> Sizes
    requires { Admitted c }
    ensures { result ≡ (scheme_of c).sizes }
{
    catalogue::sizes(c).unwrap()
}

// Whether the places that are used hold only entries that they may hold.
pub fn key_good(c: Catalogue, places: &[u8]) -> bool
    requires admitted { Admitted c }
    requires places_len { length places.now ≡ 2048 }
    ensures { result ≡ (scheme_of c).key_good (used_places scheme_of c places.now) }
{
    let sizes = sizes_of(c);
    codes::key_good(c, &places[..sizes.key])
}

// Writes a server's query for the wanted message at the start of `query`, and gives its bytes.
pub fn write_query(
    c: Catalogue,
    wanted: usize,
    places: &[u8],
    server: usize,
    query: &mut [u8],
) -> usize
    requires admitted { Admitted c }
    requires places_len { length places.now ≡ 2048 }
    requires wanted_lt_messages { (wanted < c.messages) × (server < c.servers) }
    requires places_value { (scheme_of c).key_good (used_places scheme_of c places.now) ≡ true }
    requires c_in_bounds { (scheme_of c).sizes.query ≤ length query.old }
    ensures value { result ≡ (scheme_of c).sizes.query }
    ensures query_after { query.new ≡ put 0 ((scheme_of c).query wanted server (used_places scheme_of c places.now)) query.old }
{
    let sizes = sizes_of(c);
    codes::query(c, wanted, server, &places[..sizes.key], query);
    sizes.query
}

// The bytes of the answer that a server's query for the wanted message calls for.
pub fn answer_length(c: Catalogue, wanted: usize, places: &[u8], server: usize) -> usize
    requires admitted { Admitted c }
    requires places_len { length places.now ≡ 2048 }
    requires wanted_lt_messages { (wanted < c.messages) × (server < c.servers) }
    requires places_value { (scheme_of c).key_good (used_places scheme_of c places.now) ≡ true }
    ensures { result ≡ (scheme_of c).answer_length ((scheme_of c).query wanted server (used_places scheme_of c places.now)) }
{
    let sizes = sizes_of(c);
    codes::expected_length(c, wanted, server, &places[..sizes.key])
}

// The bytes of the wanted message.
pub fn message_length(c: Catalogue, wanted: usize) -> usize
    requires { Admitted c }
    ensures { result ≡ message_length scheme_of c wanted }
{
    let sizes = sizes_of(c);
    lengths::length_of(c.lengths, sizes.message, wanted)
}

// Writes the message that the answers in their slots give at the start of `message`. The code is lent no more of it than the message's bytes.
pub fn write_message(c: Catalogue, wanted: usize, places: &[u8], answers: &[u8], message: &mut [u8])
    requires admitted { Admitted c }
    requires places_len { length places.now ≡ 2048 }
    requires wanted_lt_messages { wanted < c.messages }
    requires places_value { (scheme_of c).key_good (used_places scheme_of c places.now) ≡ true }
    requires c_in_bounds { c.servers * (scheme_of c).sizes.slot ≤ length answers.now }
    requires wanted_in_bounds { message_length scheme_of c wanted ≤ length message.old }
    ensures { message.new
        ≡ put 0 (recovered_in scheme_of c wanted (used_places scheme_of c places.now) answers.now) message.old }
{
    let sizes = sizes_of(c);
    let size = sizes.key;
    let length = message_length(c, wanted);
    codes::recover(c, wanted, &places[..size], answers, &mut message[..length]);
}
