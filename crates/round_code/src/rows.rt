// What is done for one row of a query.
ghost use Rattle.std.specs.Prelude.{◌≡◌, cond, ◌+◌, ◌-◌, ◌*◌, ◌^◌, ◌≤◌, ◌<◌, eqb, length};
ghost use Rattle.lists.specs.Parts.{put, lay};
ghost use Rattle.parameters.specs.Bounds.{blocks};
ghost use Rattle.symbol.specs.Operations.{sum_of};
ghost use Rattle.short_scheme.specs.Short.{key_sum, short_query, short_answer_length, strided_answer};
ghost use Rattle.short_scheme.specs.Rows.{RowStored};
ghost use Rattle.round_scheme.specs.Round.{digits, row_length};
ghost use Rattle.round_code.specs.Steps.{RoundNumbers, row_starts, block_from};

use crate::base;
use short_rows::answering::Messages;
use short_rows::digits;
use short_rows::recovering::Received;
use symbol::Operation;

// Writes the row that the server is asked for, by the key's entry for the block, over `out`.
pub fn write_row(n: usize, k: usize, wanted: usize, server: usize, entry: usize, out: &mut [u8])
    requires round_numbers { RoundNumbers n k }
    requires wanted_lt_k { (wanted < k) × (server < n) }
    requires bound { entry < blocks n k }
    requires out_len { length out.old ≡ k }
    ensures { out.new ≡ short_query n wanted server (digits n (k - 1) entry) }
{
    let last = k - 1;
    let short = base::digits_of(n, last, entry);
    short_code::query(n, wanted, server, &short[..last], out);
}

// The bytes that row i calls for, of a query of any length.
pub fn row_length(k: usize, s: usize, query: &[u8], i: usize) -> usize
    requires { i * k + k < 2 ^ 64 }
    ensures { result ≡ row_length k s query.now i }
{
    let from = i * k;
    if query.len() <= from {
        return 0;
    }
    if query.len() - from < k {
        return short_code::answer_length(s, &query[from..]);
    }
    let end = from + k;
    short_code::answer_length(s, &query[from..end])
}

// Writes the answer to a row, whose symbols lie as `messages` says, from byte `at` on, and gives the byte behind it.
pub fn answer_row(messages: &Messages, store: &[u8], row: &[u8], at: usize, out: &mut [u8]) -> usize
    requires s_nonzero { 0 < messages.now.size }
    requires row_stored { RowStored messages.now.first messages.now.stride messages.now.size store.now row.now }
    requires row_in_bounds { at + short_answer_length messages.now.size row.now ≤ length out.old }
    ensures value { result ≡ at + short_answer_length messages.now.size row.now }
    ensures out_after { out.new
        ≡ put at (strided_answer (sum_of messages.now.op) messages.now.first messages.now.stride messages.now.size store.now row.now) out.old }
{
    let written = messages.answer(store, row, &mut out[at..]);
    at + written
}

// The server that the short key of a block asks for none of the wanted message: the sum of its digits, modulo n.
fn asked_none(n: usize, k: usize, entry: usize) -> usize
    requires round_numbers { RoundNumbers n k }
    requires bound { entry < blocks n k }
    ensures { result ≡ key_sum n (digits n (k - 1) entry) }
{
    let last = k - 1;
    let short = base::digits_of(n, last, entry);
    digits::digit_sum(n, &short[..last])
}

// The bytes that server 0's row calls for, by the key's entry for the block: none if the entry is 0, which makes it the row of zeros.
pub fn first_length(s: usize, entry: usize) -> usize
    ensures { result ≡ cond (eqb entry 0) 0 s }
{
    if entry == 0 {
        return 0;
    }
    s
}

// Where the answers of 16 servers to one row begin.
fn row_starts(slot: usize, before: usize, behind: usize) -> [usize; 16]
    requires { (slot ≤ 1048576) × (behind ≤ 1048576) }
    ensures { result ≡ row_starts slot before behind }
{
    std::array::from_fn(|m| if m == 0 { before } else { m * slot + behind })
}

// The slots of the answer buffer, and how the blocks of a message are recovered from them.
#[derive(Clone, Copy)]
pub struct Slots<'a> {
    // How symbols are combined.
    pub op: Operation,
    // How many servers there are.
    pub servers: usize,
    // How many messages there are.
    pub messages: usize,
    // Bytes of a symbol.
    pub size: usize,
    // Bytes of a slot.
    pub slot: usize,
    // The answer buffer.
    pub answers: &'a [u8],
}

impl Slots<'_> {
    // Writes the symbols of a block from byte `at` of the message on, as far as it reaches. `entry` is the key's for the block. Server 0's answer to its row
    // begins behind `before` bytes of the buffer, any other's behind `behind` bytes of its slot.
    pub fn recover_block(
        &self,
        entry: usize,
        before: usize,
        behind: usize,
        at: usize,
        message: &mut [u8],
    )
        requires round_numbers { RoundNumbers self.now.servers self.now.messages }
        requires bound { entry < blocks self.now.servers self.now.messages }
        requires s_nonzero { (0 < self.now.size) × (self.now.size ≤ self.now.slot) × (self.now.slot ≤ 1048576) }
        requires s_bound { (before + self.now.size ≤ self.now.slot) × (behind + self.now.size ≤ self.now.slot)
            × (self.now.servers * self.now.slot ≤ length self.now.answers.now) }
        ensures { message.new
            ≡ lay at (block_from (sum_of self.now.op) self.now.servers self.now.messages self.now.size entry (row_starts self.now.slot before behind)
            self.now.answers.now) message.old }
    {
        if message.len() <= at {
            return;
        }
        let starts = row_starts(self.slot, before, behind);
        let received = Received {
            op: self.op,
            servers: self.servers,
            size: self.size,
            none: asked_none(self.servers, self.messages, entry),
            answers: self.answers,
        };
        received.recover_row(entry == 0, &starts, &mut message[at..]);
    }
}
