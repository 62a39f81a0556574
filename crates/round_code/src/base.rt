// Numbers in base n, written with the most significant digit first.
ghost use Rattle.std.specs.Prelude.{◌≡◌, true, ◌^◌, ◌≤◌, ◌<◌, length};
ghost use Rattle.lists.specs.Below.{all_below};
ghost use Rattle.lists.specs.Padded.{padded};
ghost use Rattle.round_scheme.specs.Round.{digits, number};
ghost use Rattle.round_code.specs.Steps.{most_digits};

// The number's digits, `count` of them, and zeros behind them.
pub fn digits_of(n: usize, count: usize, value: usize) -> [u8; 6]
    requires le_n { (2 ≤ n) × (n ≤ 16) }
    requires count_le_most_digits { (count ≤ most_digits) × (value < n ^ count) }
    ensures { result ≡ padded most_digits (digits n count value) }
{
    let mut out = [0; 6];
    let mut rest = value;
    for i in (0..count).rev() {
        out[i] = (rest % n) as u8;
        rest /= n;
    }
    out
}

// The number that has these digits.
pub fn number_of(n: usize, row: &[u8]) -> usize
    requires n_nonzero { (0 < n) × (all_below n row.now ≡ true) }
    requires row_bound { n ^ length row.now < 2 ^ 64 }
    ensures { result ≡ number n row.now }
{
    let mut result = 0;
    for digit in row {
        result = result * n + *digit as usize;
    }
    result
}
