// The answer to an admitted query of the even code (document 01, 'Even code'). N, K and S stay parameters of `answer`: its clauses name them one by
// one, as the papers' formulas do.
#![tactic(auto)]

ghost use Rattle.std.specs.Prelude.{◌≡◌, ◌+◌, ◌*◌, ◌^◌, ◌≤◌, length, replicate};
ghost use Rattle.lists.specs.Below.{Below};
ghost use Rattle.lists.specs.Parts.{cut, put};
ghost use Rattle.symbol.specs.Operations.{sum_of};
ghost use Rattle.even_scheme.specs.Even.{row_answer, row_answers, even_answer};
ghost use Rattle.even_sets.specs.Sets.{set_in};
ghost use Rattle.even_answer.specs.Answering.{Answerable, SetAnswerable, added};

use symbol::Operation;

// Combines the symbol of the store that begins at `start` into `out`, or copies it there if it is the first of its row. A flag, and no closure: two arms
// that differ in a call are no plainer as functions that are handed in.
fn add_symbol(op: Operation, first: bool, store: &[u8], start: usize, out: &mut [u8])
    requires { start + length out.old ≤ length store.now }
    ensures { out.new ≡ added (sum_of op) first out.old (cut start (length out.old) store.now) }
{
    let end = start + out.len();
    if first {
        symbol::copy(out, &store[start..end]);
    } else {
        symbol::combine(op, out, &store[start..end]);
    }
}

// What a server answers from: its store, and how the symbols of a row are combined.
#[derive(Clone, Copy)]
struct Stored<'a> {
    // How symbols are combined.
    op: Operation,
    // How many servers there are.
    servers: usize,
    // How many messages there are.
    messages: usize,
    // Bytes of a symbol.
    symbol: usize,
    // Symbols of a message.
    symbols: usize,
    // All symbols, message by message.
    store: &'a [u8],
    ghost count: { symbols ≡ servers ^ messages },
    ghost bytes: { Below 256 store.now },
}

impl Stored<'_> {
    // The answer to one row of the set, whose numbers are the first of `numbers`, into `out`.
    fn answer_row(&self, set: u8, numbers: &[u8], out: &mut [u8])
        requires { SetAnswerable self.now.servers self.now.messages self.now.symbol self.now.store.now set 1 numbers.now
            × (length out.old ≡ self.now.symbol) }
        ensures { out.new
            ≡ row_answer (sum_of self.now.op) self.now.servers self.now.messages self.now.symbol self.now.store.now
            (set_in self.now.messages set) numbers.now }
    {
        let mut rest = set;
        let mut taken = 0;
        for p in 0..self.messages {
            if rest % 2 == 1 {
                let number = numbers[taken] as usize;
                let start = (p * self.symbols + number) * self.symbol;
                add_symbol(self.op, taken == 0, self.store, start, out);
                taken += 1;
            }
            rest /= 2;
        }
    }

    // The answers to `rows` rows of the set, whose numbers are the first of `numbers`, to the front of `out`.
    fn answer_set(&self, set: u8, rows: usize, numbers: &[u8], out: &mut [u8])
        requires { SetAnswerable self.now.servers self.now.messages self.now.symbol self.now.store.now set rows numbers.now
            × (rows * self.now.symbol ≤ length out.old) }
        ensures { out.new
            ≡ put 0 (row_answers (sum_of self.now.op) self.now.servers self.now.messages self.now.symbol self.now.store.now
            (replicate rows (set_in self.now.messages set)) numbers.now) out.old }
    {
        let size = u8::count_ones(set) as usize;
        for row in 0..rows {
            let at = row * size;
            let from = row * self.symbol;
            let to = from + self.symbol;
            self.answer_row(set, &numbers[at..], &mut out[from..to]);
        }
    }
}

// The answer to an admitted query: one combined symbol for each row.
pub fn answer(
    op: Operation,
    n: usize,
    k: usize,
    s: usize,
    store: &[u8],
    query: &[u8],
    out: &mut [u8],
)
    requires { Answerable n k s store.now query.now out.old }
    ensures { out.new ≡ put 0 (even_answer (sum_of op) n k s store.now query.now) out.old }
{
    let stored = Stored {
        op,
        servers: n,
        messages: k,
        symbol: s,
        symbols: parameters::power(n, k),
        store,
    };
    let sets = even_sets::ordered_sets(k);
    let count = parameters::power(2, k) - 1;
    let mut at = 0;
    let mut end = 0;
    for &set in &sets[..count] {
        let rows = even_sets::rows_of(n, set);
        stored.answer_set(set, rows, &query[at..], &mut out[end..]);
        at += rows * u8::count_ones(set) as usize;
        end += rows * s;
    }
}
