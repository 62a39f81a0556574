// The digits of a row or key: whether all are below n, and their sum modulo n, which is made without a division and stays below n throughout
// (document 02, item 3; specs/Running.antt).
ghost use Rattle.std.specs.Prelude.{◌≡◌, true, ◌+◌, ◌-◌, ◌%◌, ◌<◌, length};
ghost use Rattle.lists.specs.Below.{all_below};
ghost use Rattle.short_scheme.specs.Short.{digit_sum};
ghost use Rattle.short_rows.specs.Running.{sum_after};

// Whether every digit is below n.
pub fn all_below(n: usize, digits: &[u8]) -> bool
    ensures { result ≡ all_below n digits.now }
{
    digits.iter().all(|d| (*d as usize) < n)
}

// (a + b) modulo n, without a division.
pub fn add_modulo(n: usize, a: usize, b: usize) -> usize
    requires { (a < n) × (b < n) }
    ensures { result ≡ (a + b) % n }
{
    let left = n - a;
    if b < left {
        return a + b;
    }
    b - left
}

// (a - b) modulo n, without a division.
pub fn subtract_modulo(n: usize, a: usize, b: usize) -> usize
    requires { (a < n) × (b < n) }
    ensures { result ≡ (a + (n - b)) % n }
{
    if b <= a {
        return a - b;
    }
    a + (n - b)
}

// A turn of the loop below: from the running sum before digit i to the one after it. Both are below n.
fn next_sum(n: usize, digits: &[u8], i: usize, sum: usize) -> usize
    requires digits_value { all_below n digits.now ≡ true }
    requires i_in_bounds { i < length digits.now }
    requires sum_value { sum ≡ sum_after n digits.now i }
    ensures value { result ≡ sum_after n digits.now (i + 1) }
    ensures sum_lt_n { (sum < n) × (result < n) }
{
    add_modulo(n, sum, digits[i] as usize)
}

// The digits summed up, modulo n: the last of their running sums.
pub fn digit_sum(n: usize, digits: &[u8]) -> usize
    requires { all_below n digits.now ≡ true }
    ensures value { result ≡ digit_sum digits.now % n }
    ensures value_2 { result ≡ sum_after n digits.now (length digits.now) }
{
    let mut sum = 0;
    for i in 0..digits.len() {
        sum = next_sum(n, digits, i, sum);
    }
    sum
}
