// Recovery from the servers' answers to one row each: server (d + t) modulo n was asked for digit d at the wanted message, and server t
// for none. The caller says where each server's answer begins in the answer buffer, and whether server t's is empty.
ghost use Rattle.std.specs.Prelude.{◌≡◌, ◌+◌, ◌-◌, ◌≤◌, ◌<◌, length};
ghost use mathlib.Core.List.{flat_map};
ghost use Rattle.lists.specs.Parts.{cut, lay};
ghost use Rattle.lists.specs.Ranges.{range};
ghost use Rattle.symbol.specs.Sum.{less};
ghost use Rattle.symbol.specs.Operations.{sum_of};
ghost use Rattle.short_scheme.specs.Short.{all_zero};
ghost use Rattle.short_rows.specs.Steps.{Placed, Slotted, slot_starts, from_places};

use symbol::Operation;

// Where the slots of 16 servers begin, if each has s bytes.
fn slot_starts(s: usize) -> [usize; 16]
    requires { s ≤ 1048576 }
    ensures { result ≡ slot_starts s }
{
    std::array::from_fn(|i| i * s)
}

// The servers' answers to one row each, and how symbols are recovered from them.
#[derive(Clone, Copy)]
pub struct Received<'a> {
    // How symbols are combined.
    pub op: Operation,
    // How many servers there are.
    pub servers: usize,
    // Bytes of a symbol.
    pub size: usize,
    // Server t, which was asked for none of the wanted message.
    pub none: usize,
    // The answer buffer.
    pub answers: &'a [u8],
}

impl Received<'_> {
    // Writes the symbol at byte `from` of the answers, less the one at `other`, from byte `at` of the message on, as far as it reaches.
    // `empty`: nothing is taken away.
    fn recover_symbol(&self, empty: bool, from: usize, other: usize, at: usize, message: &mut [u8])
        requires s_in_bounds { from + self.now.size ≤ length self.now.answers.now }
        requires s_in_bounds_2 { other + self.now.size ≤ length self.now.answers.now }
        ensures { message.new
            ≡ lay at (less (sum_of self.now.op) empty (cut from self.now.size self.now.answers.now) (cut other self.now.size self.now.answers.now))
            message.old }
    {
        let from_end = from + self.size;
        let other_end = other + self.size;
        symbol::write_difference(
            self.op,
            empty,
            &self.answers[from..from_end],
            &self.answers[other..other_end],
            at,
            message,
        );
    }

    // Writes the symbols of digits 1 to n - 1 from the start of `message` on, as far as it reaches. `starts`: where the servers' answers
    // begin; `empty`: server t's is.
    pub fn recover_row(&self, empty: bool, starts: &[usize], message: &mut [u8])
        requires t_lt_n { self.now.none < self.now.servers }
        requires placed { Placed self.now.servers self.now.size starts.now self.now.answers.now }
        ensures { message.new
            ≡ lay 0 (flat_map (from_places (sum_of self.now.op) self.now.servers self.now.size self.now.none empty starts.now self.now.answers.now)
            (range 1 (self.now.servers - 1))) message.old }
    {
        let other = starts[self.none];
        for d in 1..self.servers {
            let server = crate::digits::add_modulo(self.servers, d, self.none);
            let from = starts[server];
            let at = (d - 1) * self.size;
            self.recover_symbol(empty, from, other, at, message);
        }
    }

    // The same from answers in slots of a symbol's bytes. Server t's is empty exactly if the row's other digits, the key's, are all 0.
    pub fn recover_slots(&self, key: &[u8], message: &mut [u8])
        requires t_lt_n { self.now.none < self.now.servers }
        requires slotted { Slotted self.now.servers self.now.size self.now.answers.now }
        ensures { message.new
            ≡ lay 0 (flat_map (from_places (sum_of self.now.op) self.now.servers self.now.size self.now.none (all_zero key.now)
            (slot_starts self.now.size) self.now.answers.now) (range 1 (self.now.servers - 1))) message.old }
    {
        let starts = slot_starts(self.size);
        let empty = crate::digits::all_below(1, key);
        self.recover_row(empty, &starts, message);
    }
}
