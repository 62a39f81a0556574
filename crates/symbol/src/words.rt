// Rows of 16-bit words, the low byte first, changed in place by another row, word by word (02, item 2).
ghost use Rattle.std.specs.Prelude.{◌≡◌, ℕ, ◌+◌, ◌/◌, ◌%◌, ◌<◌, length, get_or, set};
ghost use Rattle.symbol.specs.Words.{word, on_words, Steps};

// The word at a place.
fn word_at(bytes: &[u8], at: usize) -> u16
    requires { at + 1 < length bytes.now }
    ensures { result ≡ word (get_or bytes.now at 0) (get_or bytes.now (at + 1) 0) }
{
    u16::from_le_bytes([bytes[at], bytes[at + 1]])
}

// Writes a word at a place.
fn put_word(dst: &mut [u8], at: usize, value: u16)
    requires { at + 1 < length dst.old }
    ensures { dst.new ≡ set (set dst.old at (value % 256)) (at + 1) (value / 256) }
{
    let [low, high] = value.to_le_bytes();
    dst[at] = low;
    dst[at + 1] = high;
}

// Changes each word of `dst` by that of `src`. Where they end inside a word, its lone low byte is changed by itself.
pub fn change<F: Fn(u16, u16) -> u16>(step: F, dst: &mut [u8], src: &[u8])
    requires callable { F.IsAlwaysCallable step }
    requires len { length src.now ≡ length dst.old }
    ensures { (by : ℕ → ℕ → ℕ → ℕ) → Steps (F.post step) by → dst.new ≡ on_words by dst.old src.now }
{
    let whole = src.len() / 2;
    for k in 0..whole {
        let at = 2 * k;
        let value = step(word_at(dst, at), word_at(src, at));
        put_word(dst, at, value);
    }
    let last = 2 * whole;
    if last < src.len() {
        let [low, _] = step(u16::from(dst[last]), u16::from(src[last])).to_le_bytes();
        dst[last] = low;
    }
}
