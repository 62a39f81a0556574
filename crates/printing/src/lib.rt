// The request printer: from the text of an input to the text of its output.
#![tactic(auto)]

ghost use Rattle.std.specs.Prelude.{◌≡◌, true, ◌+◌, ◌*◌, ◌≤◌, ◌<◌, length, Some, replicate};
ghost use Rattle.lists.specs.Parts.{put};
ghost use Rattle.lists.specs.Below.{all_below};
ghost use Rattle.refusal.specs.Verdicts.{accepted};
ghost use Rattle.catalogue.specs.Catalogue.{Admitted};
ghost use Rattle.codes.specs.Codes.{scheme_of};
ghost use Rattle.session.specs.Calls.{begin_verdict};
ghost use Rattle.number_lists.specs.NumberLists.{numbers_at, scanned, scan_of, list_of};
ghost use Rattle.printing.specs.Input.{asked};
ghost use Rattle.printing.specs.Output.{query_head, query_line, refusal_line, query_lines, answer_to, printed, page_bytes, page_of};
ghost use Rattle.printing.specs.Steps.{check_verdict};

use catalogue::Catalogue;
use refusal::Refusal;

// What can be said of an input before its key's entries are read.
mod checks;

// An output at the start, then zeros. A buffer and a length: fixed memory, no heap.
#[derive(Clone, Copy)]
pub struct Page {
    pub bytes: [u8; 8496],
    pub length: usize,
}

// Writes the line of a refusal at the start, and gives the place after it.
fn put_refusal(out: &mut [u8], refusal: Refusal) -> usize
    requires { 11 ≤ length out.old }
    ensures value { result ≡ length (refusal_line refusal) }
    ensures out_after { out.new ≡ put 0 (refusal_line refusal) out.old }
{
    let number = refusal::number(refusal);
    text_lines::put_line(out, 0, b"refused=", number as usize)
}

// Writes what stands before a server's query from place `at` on, and gives the place after it.
fn put_head(out: &mut [u8], at: usize, server: usize) -> usize
    requires { (server < 100) × (at + 18 ≤ length out.old) }
    ensures value { result ≡ at + length (query_head server) }
    ensures out_after { out.new ≡ put at (query_head server) out.old }
{
    let number = text_lines::put_bytes(out, at, b"mirror=");
    let name = text_lines::put_decimal(out, number, server);
    text_lines::put_bytes(out, name, b" request=")
}

// Writes the line of a server and its query from place `at` on, and gives the place after it.
fn put_line(out: &mut [u8], at: usize, server: usize, query: &[u8]) -> usize
    requires { (server < 100) × (at + (19 + 4 * length query.now) ≤ length out.old) }
    ensures value { result ≡ at + length (query_line server query.now) }
    ensures upper_bound { result ≤ at + (19 + 4 * length query.now) }
    ensures out_after { out.new ≡ put at (query_line server query.now) out.old }
{
    let first = put_head(out, at, server);
    let end = number_lists::put_spaced(out, first, query);
    text_lines::put_bytes(out, end, b"\n")
}

// So many zeros.
fn zeros<const N: usize>() -> [u8; N]
    ensures { result ≡ replicate N 0 }
{
    [0; N]
}

// The queries of a wanted message with a key.
#[derive(Clone, Copy)]
struct Queries<'a> {
    // What the catalogue says.
    catalogue: Catalogue,
    // The wanted message.
    wanted: usize,
    // The key.
    key: &'a [u8],
    // Bytes of a query.
    size: usize,
    ghost begun: { begin_verdict scheme_of catalogue wanted key.now ≡ accepted },
    ghost sized: { size ≡ (scheme_of catalogue).sizes.query },
}

impl Queries<'_> {
    // Writes the line of a server, with its query, from place `at` on, and gives the place after it.
    fn put_query(&self, server: usize, out: &mut [u8], at: usize) -> usize
        requires server_lt_servers { server < self.now.catalogue.servers }
        requires size_in_bounds { at + (19 + 4 * self.now.size) ≤ length out.old }
        ensures value { result ≡ at + length (query_line server ((scheme_of self.now.catalogue).query self.now.wanted server self.now.key.now)) }
        ensures upper_bound { result ≤ at + (19 + 4 * self.now.size) }
        ensures out_after { out.new
            ≡ put at (query_line server ((scheme_of self.now.catalogue).query self.now.wanted server self.now.key.now)) out.old }
    {
        let mut query = zeros::<2048>();
        codes::query(
            self.catalogue,
            self.wanted,
            server,
            self.key,
            &mut query[..self.size],
        );
        put_line(out, at, server, &query[..self.size])
    }

    // Writes a line for each server, with its query, and gives the length of them all.
    fn put_queries(&self, out: &mut [u8]) -> usize
        requires { page_bytes ≤ length out.old }
        ensures value { result ≡ length (query_lines scheme_of (asked self.now.catalogue self.now.wanted self.now.key.now)) }
        ensures out_after { out.new ≡ put 0 (query_lines scheme_of (asked self.now.catalogue self.now.wanted self.now.key.now)) out.old }
    {
        let mut at = 0;
        for server in 0..self.catalogue.servers {
            at = self.put_query(server, out, at);
        }
        at
    }
}

// Writes the output for a key of bytes that has the right length: a refusal of its entries, or the queries.
fn put_keyed(c: Catalogue, wanted: usize, key: &[u8], size: usize, out: &mut [u8]) -> usize
    requires admitted { (Admitted c) × (wanted < c.messages) }
    requires key_len { (length key.now ≡ (scheme_of c).sizes.key) × (all_below 256 key.now ≡ true) }
    requires size_value { (size ≡ (scheme_of c).sizes.query) × (page_bytes ≤ length out.old) }
    ensures value { result ≡ length (answer_to scheme_of (asked c wanted key.now)) }
    ensures out_after { out.new ≡ put 0 (answer_to scheme_of (asked c wanted key.now)) out.old }
{
    if !codes::key_good(c, key) {
        return put_refusal(out, Refusal::KeyEntry);
    }
    let queries = Queries {
        catalogue: c,
        wanted,
        key,
        size,
    };
    queries.put_queries(out)
}

// What an input asks for, and where its text has the key's numbers.
#[derive(Clone, Copy)]
struct Request<'a> {
    // What the catalogue says.
    catalogue: Catalogue,
    // The wanted message.
    wanted: usize,
    // The text.
    text: &'a [u8],
    // The place of the key's numbers.
    at: usize,
    // How many numbers there are.
    count: usize,
    // Whether all are bytes.
    bytes: bool,
    ghost numbers: { scan_of (numbers_at text.now at) ≡ Some (scanned count bytes) },
}

impl Request<'_> {
    // Reads the key's numbers, which are as many as are due and all bytes, and writes the output for them.
    fn put_checked(&self, size: usize, out: &mut [u8]) -> usize
        requires true_value { check_verdict scheme_of self.now.catalogue self.now.wanted self.now.count self.now.bytes ≡ accepted }
        requires size_value { (size ≡ (scheme_of self.now.catalogue).sizes.query) × (page_bytes ≤ length out.old) }
        ensures value { result
            ≡ length (answer_to scheme_of (asked self.now.catalogue self.now.wanted (list_of (numbers_at self.now.text.now self.now.at)))) }
        ensures out_after { out.new
            ≡ put 0 (answer_to scheme_of (asked self.now.catalogue self.now.wanted (list_of (numbers_at self.now.text.now self.now.at)))) out.old }
    {
        let mut places = zeros::<2048>();
        number_lists::put_numbers(self.text, self.at, &mut places[..self.count]);
        put_keyed(
            self.catalogue,
            self.wanted,
            &places[..self.count],
            size,
            out,
        )
    }

    // Writes the output for what is asked for: a refusal, or the queries.
    fn put_asked(&self, out: &mut [u8]) -> usize
        requires { page_bytes ≤ length out.old }
        ensures value { result
            ≡ length (answer_to scheme_of (asked self.now.catalogue self.now.wanted (list_of (numbers_at self.now.text.now self.now.at)))) }
        ensures out_after { out.new
            ≡ put 0 (answer_to scheme_of (asked self.now.catalogue self.now.wanted (list_of (numbers_at self.now.text.now self.now.at)))) out.old }
    {
        let outcome = checks::check(self.catalogue, self.wanted, self.count, self.bytes);
        match outcome {
            Ok(size) => self.put_checked(size, out),
            Err(refusal) => put_refusal(out, refusal),
        }
    }
}

// Writes the output for the input at the start, and gives its length.
fn put_page(input: &[u8], out: &mut [u8]) -> usize
    requires { page_bytes ≤ length out.old }
    ensures value { result ≡ length (printed scheme_of input.now) }
    ensures out_after { out.new ≡ put 0 (printed scheme_of input.now) out.old }
{
    if 65536 < input.len() {
        return put_refusal(out, Refusal::Text);
    }
    let found = catalogue_text::catalogue_lines(input);
    let Ok(()) = found.verdict else {
        return put_refusal(out, Refusal::Text);
    };
    let Some(wanted) = text_lines::number_line(5, b"wanted=", input, found.next) else {
        return put_refusal(out, Refusal::Text);
    };
    let Some(key) = checks::scan_key(input, wanted.next) else {
        return put_refusal(out, Refusal::Text);
    };
    let request = Request {
        catalogue: found.catalogue,
        wanted: wanted.value,
        text: input,
        at: wanted.next + 4,
        count: key.count,
        bytes: key.bytes,
    };
    request.put_asked(out)
}

// The output for the input, any bytes of any length; it fits the page.
pub fn print(input: &[u8]) -> Page
    ensures value { result ≡ page_of (printed scheme_of input.now) }
    ensures length_in_bounds { result.length ≤ length result.bytes }
{
    let mut bytes = zeros::<8496>();
    let length = put_page(input, &mut bytes);
    Page {
        bytes: bytes,
        length: length,
    }
}
