// Numbers that look random and are the same in every run, and the stores and parts of keys made of them. The second implementation draws the same.
ghost use Rattle.std.specs.Prelude.{◌≤◌};

// The lesser of two numbers.
pub fn at_most(a: usize, most: usize) -> usize
    ensures upper_bound { result ≤ a }
    ensures upper_bound_2 { result ≤ most }
{
    a.min(most)
}

// The next number of the sequence.
fn next(x: u64) -> u64 {
    (x % 2147483648 * 1103515245 + 12345) % 2147483648
}

// The number below `n` that a number of the sequence gives; 0 if there is none.
fn below(x: u64, n: usize) -> usize {
    if n == 0 {
        return 0;
    }
    (x / 65536) as usize % n
}

// The last eight bits.
pub fn byte(x: usize) -> u8 {
    (x % 256) as u8
}

// Fills a buffer with one byte.
pub fn fill(value: u8, out: &mut [u8]) {
    out.fill(value);
}

// Fills a buffer with numbers below `n` of the sequence.
pub fn numbers(seed: u64, n: usize, out: &mut [u8]) {
    let mut x = seed;
    for place in out.iter_mut() {
        x = next(x);
        *place = byte(below(x, n));
    }
}

// Fills so many bytes from the start of a buffer, or all of it, with bytes of the sequence.
pub fn start(seed: u64, count: usize, out: &mut [u8]) {
    let end = at_most(count, out.len());
    numbers(seed, 256, &mut out[..end]);
}

// Stores one byte, where there is such a place.
pub fn poke(out: &mut [u8], place: usize, value: usize) {
    if place < out.len() {
        out[place] = byte(value);
    }
}

// Exchanges two places, where there are such places.
fn swap(out: &mut [u8], i: usize, j: usize) {
    if i < out.len() && j < out.len() {
        out.swap(i, j);
    }
}

// Writes 0, 1, 2 and so on.
fn ascending(out: &mut [u8]) {
    for (i, place) in out.iter_mut().enumerate() {
        *place = byte(i);
    }
}

// Shuffles the bytes, from the last one down, and gives the sequence's number reached; for the seed 0, leaves them.
fn shuffle(seed: u64, out: &mut [u8]) -> u64 {
    if seed == 0 {
        return 0;
    }
    let mut x = seed;
    for i in (1..out.len()).rev() {
        x = next(x);
        let j = below(x, i + 1);
        swap(out, i, j);
    }
    x
}

// Writes permutations of 0 to `m` - 1, one after another, up to the end.
pub fn permutations(seed: u64, m: usize, out: &mut [u8]) {
    let size = at_most(m, 256);
    if size == 0 {
        return;
    }
    let mut x = seed;
    for part in out.chunks_exact_mut(size) {
        ascending(part);
        x = shuffle(x, part);
    }
}

// Writes digits below `n` up to the end; for the seed 0, zeros.
pub fn digits(seed: u64, n: usize, out: &mut [u8]) {
    if seed == 0 {
        fill(0, out);
    } else {
        numbers(seed, n, out);
    }
}
