// The sets of an even query's rows, which every server knows from N and K: in order, and how many rows each has.
// A set of messages is one byte, bit p for message p; its block is the number of ones in it (document 01, 'Even code').
#![tactic(auto)]

ghost use Rattle.std.specs.Prelude.{◌≡◌, map, ◌-◌, ◌^◌, ◌≤◌, ◌<◌};
ghost use Rattle.std.specs.Int.Count.{ones};
ghost use Rattle.lists.specs.Padded.{padded};
ghost use Rattle.even_places.specs.Rule.{byte_of, all_sets};
ghost use Rattle.even_sets.specs.Sets.{listed_rows};

// The sets of an even query in order, for each number of messages up to 8: those of k messages stand from 2^k on, and the empty one after them.
const SETS: [[u8; 8]; 64] = [
    [0, 0, 1, 0, 1, 2, 3, 0],
    [1, 2, 4, 3, 5, 6, 7, 0],
    [1, 2, 4, 8, 3, 5, 9, 6],
    [10, 12, 7, 11, 13, 14, 15, 0],
    [1, 2, 4, 8, 16, 3, 5, 9],
    [17, 6, 10, 18, 12, 20, 24, 7],
    [11, 19, 13, 21, 25, 14, 22, 26],
    [28, 15, 23, 27, 29, 30, 31, 0],
    [1, 2, 4, 8, 16, 32, 3, 5],
    [9, 17, 33, 6, 10, 18, 34, 12],
    [20, 36, 24, 40, 48, 7, 11, 19],
    [35, 13, 21, 37, 25, 41, 49, 14],
    [22, 38, 26, 42, 50, 28, 44, 52],
    [56, 15, 23, 39, 27, 43, 51, 29],
    [45, 53, 57, 30, 46, 54, 58, 60],
    [31, 47, 55, 59, 61, 62, 63, 0],
    [1, 2, 4, 8, 16, 32, 64, 3],
    [5, 9, 17, 33, 65, 6, 10, 18],
    [34, 66, 12, 20, 36, 68, 24, 40],
    [72, 48, 80, 96, 7, 11, 19, 35],
    [67, 13, 21, 37, 69, 25, 41, 73],
    [49, 81, 97, 14, 22, 38, 70, 26],
    [42, 74, 50, 82, 98, 28, 44, 76],
    [52, 84, 100, 56, 88, 104, 112, 15],
    [23, 39, 71, 27, 43, 75, 51, 83],
    [99, 29, 45, 77, 53, 85, 101, 57],
    [89, 105, 113, 30, 46, 78, 54, 86],
    [102, 58, 90, 106, 114, 60, 92, 108],
    [116, 120, 31, 47, 79, 55, 87, 103],
    [59, 91, 107, 115, 61, 93, 109, 117],
    [121, 62, 94, 110, 118, 122, 124, 63],
    [95, 111, 119, 123, 125, 126, 127, 0],
    [1, 2, 4, 8, 16, 32, 64, 128],
    [3, 5, 9, 17, 33, 65, 129, 6],
    [10, 18, 34, 66, 130, 12, 20, 36],
    [68, 132, 24, 40, 72, 136, 48, 80],
    [144, 96, 160, 192, 7, 11, 19, 35],
    [67, 131, 13, 21, 37, 69, 133, 25],
    [41, 73, 137, 49, 81, 145, 97, 161],
    [193, 14, 22, 38, 70, 134, 26, 42],
    [74, 138, 50, 82, 146, 98, 162, 194],
    [28, 44, 76, 140, 52, 84, 148, 100],
    [164, 196, 56, 88, 152, 104, 168, 200],
    [112, 176, 208, 224, 15, 23, 39, 71],
    [135, 27, 43, 75, 139, 51, 83, 147],
    [99, 163, 195, 29, 45, 77, 141, 53],
    [85, 149, 101, 165, 197, 57, 89, 153],
    [105, 169, 201, 113, 177, 209, 225, 30],
    [46, 78, 142, 54, 86, 150, 102, 166],
    [198, 58, 90, 154, 106, 170, 202, 114],
    [178, 210, 226, 60, 92, 156, 108, 172],
    [204, 116, 180, 212, 228, 120, 184, 216],
    [232, 240, 31, 47, 79, 143, 55, 87],
    [151, 103, 167, 199, 59, 91, 155, 107],
    [171, 203, 115, 179, 211, 227, 61, 93],
    [157, 109, 173, 205, 117, 181, 213, 229],
    [121, 185, 217, 233, 241, 62, 94, 158],
    [110, 174, 206, 118, 182, 214, 230, 122],
    [186, 218, 234, 242, 124, 188, 220, 236],
    [244, 248, 63, 95, 159, 111, 175, 207],
    [119, 183, 215, 231, 123, 187, 219, 235],
    [243, 125, 189, 221, 237, 245, 249, 126],
    [190, 222, 238, 246, 250, 252, 127, 191],
    [223, 239, 247, 251, 253, 254, 255, 0],
];

// The table, in rows of eight.
fn listed_sets() -> [[u8; 8]; 64]
    ensures { result ≡ listed_rows }
{
    SETS
}

// The sets of an even query in order: by block, in each in lexicographic order.
pub fn ordered_sets(k: usize) -> [u8; 256]
    requires { k ≤ 8 }
    ensures { result ≡ padded 256 (map byte_of (all_sets k)) }
{
    let table = listed_sets();
    let first = parameters::power(2, k);
    let count = first - 1;
    let mut sets = [0u8; 256];
    for i in 0..count {
        let place = first + i;
        sets[i] = table[place / 8][place % 8];
    }
    sets
}

// How many rows of a query have the set, which has a message in it: N - 1 to the power of its block, counted from 0.
pub fn rows_of(n: usize, set: u8) -> usize
    requires { (1 ≤ n) × (1 ≤ ones set) × ((n - 1) ^ (ones set - 1) < 2 ^ 64) }
    ensures { result ≡ (n - 1) ^ (ones set - 1) }
{
    parameters::power(n - 1, u8::count_ones(set) as usize - 1)
}
