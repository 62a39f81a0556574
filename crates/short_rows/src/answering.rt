// Rows of digits and the answers to them, wherever the messages lie in the store.
ghost use Rattle.std.specs.Prelude.{◌≡◌, false, [], ◌∷◌, ◌+◌, ◌*◌, ◌≤◌, ◌<◌, length};
ghost use Rattle.lists.specs.Parts.{put};
ghost use Rattle.symbol.specs.Operations.{sum_of};
ghost use Rattle.short_scheme.specs.Short.{named, short_answer_length, strided_answer};
ghost use Rattle.short_scheme.specs.Rows.{RowStored};
ghost use Rattle.short_rows.specs.Steps.{gathered, begun_by};

use symbol::Operation;

// Where the messages lie in a store, and how their symbols are combined. The first message's symbols are those from number `first` of the
// store on, and each next one's lie `stride` symbols later. In the short code `first` is 0 and `stride` n - 1.
// The store is lent beside it: of a slice that is lent by itself it is known that its items are bytes, without a field that says so.
#[derive(Clone, Copy)]
pub struct Messages {
    // How symbols are combined.
    pub op: Operation,
    // The number of the first message's first symbol.
    pub first: usize,
    // How many symbols later those of each next message lie.
    pub stride: usize,
    // Bytes of a symbol.
    pub size: usize,
}

impl Messages {
    // Gathers the symbol that digit d names in `out`, and says whether one has begun it now. Digit 1 names symbol `at`; digit 0 names none.
    fn gather_digit(&self, store: &[u8], at: usize, d: usize, begun: bool, out: &mut [u8]) -> bool
        requires s_nonzero { (0 < self.now.size) × ((at + d) * self.now.size ≤ length store.now) }
        requires out_len { length out.old ≡ self.now.size }
        ensures value { result ≡ begun_by begun d }
        ensures out_after { out.new
            ≡ gathered (sum_of self.now.op) begun out.old (named at 0 self.now.size store.now (d ∷ [])) }
    {
        if d == 0 {
            return begun;
        }
        let start = (at + (d - 1)) * self.size;
        let end = start + self.size;
        if begun {
            symbol::combine(self.op, out, &store[start..end]);
            return true;
        }
        symbol::copy(out, &store[start..end]);
        true
    }

    // Gathers the symbols that the row names in `out`: one pass over its digits.
    pub fn gather(&self, store: &[u8], row: &[u8], out: &mut [u8])
        requires s_nonzero { 0 < self.now.size }
        requires row_stored { RowStored self.now.first self.now.stride self.now.size store.now row.now }
        requires out_len { length out.old ≡ self.now.size }
        ensures { out.new
            ≡ gathered (sum_of self.now.op) false out.old (named self.now.first self.now.stride self.now.size store.now row.now) }
    {
        let mut begun = false;
        for (p, d) in row.iter().enumerate() {
            let at = self.first + p * self.stride;
            begun = self.gather_digit(store, at, *d as usize, begun, out);
        }
    }

    // Writes the answer to the row, nothing for the row of zeros, and gives its length.
    pub fn answer(&self, store: &[u8], row: &[u8], out: &mut [u8]) -> usize
        requires s_nonzero { 0 < self.now.size }
        requires row_stored { RowStored self.now.first self.now.stride self.now.size store.now row.now }
        requires row_in_bounds { short_answer_length self.now.size row.now ≤ length out.old }
        ensures value { result ≡ short_answer_length self.now.size row.now }
        ensures out_after { out.new
            ≡ put 0 (strided_answer (sum_of self.now.op) self.now.first self.now.stride self.now.size store.now row.now) out.old }
    {
        let empty = crate::digits::all_below(1, row);
        if empty {
            return 0;
        }
        self.gather(store, row, &mut out[..self.size]);
        self.size
    }
}
