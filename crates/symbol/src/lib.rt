// Symbols of bytes (01: pieces): copied, combined and taken away again. All combining of the codes goes through `combine`, `subtract`
// and `write_difference`, which are told the operation; no code asks which it is.
#![tactic(auto)]

ghost use Rattle.std.specs.Prelude.{◌≡◌, length};
ghost use Rattle.lists.specs.Parts.{lay};
ghost use Rattle.symbol.specs.Sum.{less};
ghost use Rattle.symbol.specs.Xor.{xor_bytes};
ghost use Rattle.symbol.specs.Operations.{sum_of};

// Addition, word by word.
mod words;

// What symbols are combined by.
#[derive(Clone, Copy, PartialEq, Eq)]
pub enum Operation {
    // Exclusive or, byte by byte.
    ExclusiveOr,
    // Addition of 16-bit words, the low byte first.
    Addition,
}

// Combines `src` into `dst` by exclusive or, byte by byte.
fn exclusive_or(dst: &mut [u8], src: &[u8])
    requires { length src.now ≡ length dst.old }
    ensures { dst.new ≡ xor_bytes dst.old src.now }
{
    for (i, byte) in src.iter().enumerate() {
        dst[i] ^= *byte;
    }
}

// Combines `src` into `dst`.
pub fn combine(op: Operation, dst: &mut [u8], src: &[u8])
    requires { length src.now ≡ length dst.old }
    ensures { dst.new ≡ (sum_of op).plus dst.old src.now }
{
    match op {
        Operation::ExclusiveOr => exclusive_or(dst, src),
        Operation::Addition => words::change(|a, b| a.wrapping_add(b), dst, src),
    }
}

// Takes `taken` away from `from`.
pub fn subtract(op: Operation, from: &mut [u8], taken: &[u8])
    requires { length taken.now ≡ length from.old }
    ensures { from.new ≡ (sum_of op).minus from.old taken.now }
{
    match op {
        Operation::ExclusiveOr => exclusive_or(from, taken),
        Operation::Addition => words::change(|a, b| a.wrapping_sub(b), from, taken),
    }
}

// Copies `src` over `dst`.
pub fn copy(dst: &mut [u8], src: &[u8])
    requires { length src.now ≡ length dst.old }
    ensures { dst.new ≡ src.now }
{
    // A loop, and not `copy_from_slice`: it becomes memcpy, which the archive for C has needed from outside all along, and that method memmove.
    for (i, byte) in src.iter().enumerate() {
        dst[i] = *byte;
    }
}

// Copies `first` over `part` and takes `other` away from it. `alone`: nothing is taken away.
#[tactic(auto, unfolding(crate::specs::Sum::less))]
fn difference(op: Operation, alone: bool, first: &[u8], other: &[u8], part: &mut [u8])
    requires first_len { length first.now ≡ length part.old }
    requires other_len { length other.now ≡ length part.old }
    ensures { part.new ≡ less (sum_of op) alone first.now other.now }
{
    copy(part, first);
    if !alone {
        subtract(op, part, other);
    }
}

// Writes the symbol `first`, less `other`, from byte `at` of the message on: as much of it as the message has room for. `alone`: nothing
// is taken away. A flag beside `other`, and no `Option`: each caller has both symbols' places at hand, and an `Option` of one is no plainer there.
pub fn write_difference(
    op: Operation,
    alone: bool,
    first: &[u8],
    other: &[u8],
    at: usize,
    message: &mut [u8],
)
    requires { length other.now ≡ length first.now }
    ensures { message.new
        ≡ lay at (less (sum_of op) alone first.now other.now) message.old }
{
    if message.len() <= at {
        return;
    }
    let size = first.len().min(message.len() - at);
    let end = at + size;
    difference(
        op,
        alone,
        &first[..size],
        &other[..size],
        &mut message[at..end],
    );
}
