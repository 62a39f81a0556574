// Where a row of an even query comes from: all its messages take their next places, or it is joined from another server's row.
ghost use Rattle.std.specs.Prelude.{◌≡◌, true, cond, ◌&&◌, ◌-◌, ◌/◌, ◌%◌, ◌^◌, ◌≤◌, ◌<◌, eqb, ltb};
ghost use Rattle.std.specs.Int.Count.{ones as count};
ghost use Rattle.even_ranks.specs.Walk.{«plain» as plain_of, «joined» as joinedOf};

use even_ranks::Origin;

// Where a row comes from: the one numbered i of a set of `ones` messages, all of which take their next places.
fn plain(n: usize, server: usize, ones: usize, i: usize) -> Origin
    requires { (1 ≤ n) × (1 ≤ ones) × ((n - 1) ^ (ones - 1) ≤ 256) }
    ensures { result ≡ plain_of n server ones i }
{
    let rows = parameters::power(n - 1, ones - 1);
    Origin {
        block: ones - 1,
        source: ones - 1,
        rows,
        turn: server,
        server,
        number: i,
    }
}

// The same of a row that is joined from another server's.
fn joined(n: usize, server: usize, ones: usize, i: usize) -> Origin
    requires { (2 ≤ n) × (n ≤ 16) × (server < n) × (2 ≤ ones) × (i < (n - 1) ^ (ones - 1)) × ((n - 1) ^ (ones - 1) ≤ 256) }
    ensures { result ≡ joinedOf n server ones i }
{
    let rows = parameters::power(n - 1, ones - 2);
    let other = i / rows;
    Origin {
        block: ones - 1,
        source: ones - 2,
        rows,
        turn: server * (n - 1) + other,
        server: even_layout::other_server(server, other),
        number: i % rows,
    }
}

// Whether a set's rows are joined: it has the wanted message and another.
pub fn is_joined(wanted: usize, set: u8) -> bool
    requires { wanted < 8 }
    ensures { result ≡ eqb (set / 2 ^ wanted % 2) 1 && ltb 1 (count set) }
{
    (set >> wanted) % 2 == 1 && 1 < u8::count_ones(set)
}

// A row's origin, by whether its set's rows are joined. A flag, and no closure: it is asked once for all rows of a set.
pub fn origin(n: usize, server: usize, joins: bool, ones: usize, i: usize) -> Origin
    requires { (2 ≤ n) × (n ≤ 16) × (server < n) × (1 ≤ ones) × (joins ≡ true → 2 ≤ ones) × (i < (n - 1) ^ (ones - 1))
        × ((n - 1) ^ (ones - 1) ≤ 256) }
    ensures { result ≡ cond joins (joinedOf n server ones i) (plain_of n server ones i) }
{
    if joins {
        return joined(n, server, ones, i);
    }
    plain(n, server, ones, i)
}
