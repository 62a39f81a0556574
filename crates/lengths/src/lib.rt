// Where the messages of a catalogue end (document 02, item 6: `length=` lines): a length for each message, or none for any.
#![tactic(auto)]

ghost use Rattle.std.specs.Prelude.{◌≡◌};
ghost use Rattle.lengths.specs.Lengths.{no_lengths, filled, is_length, place_fits, lengths_fit, length_of};

// A mark beside the places, and no `Option`: a value without the mark whose places are not 0 is told from one that fits, and refused.
#[derive(Clone, Copy)]
pub struct Lengths {
    // Whether there are lines.
    pub given: bool,
    // The bytes of each message; 0 in every place that no line fills.
    pub places: [u32; 32],
}

// Zeros, where there are no lines.
#[tactic(auto, unfolding(crate::specs::Lengths::no_lengths))]
pub fn none() -> Lengths
    ensures { result ≡ no_lengths }
{
    Lengths {
        given: false,
        places: [0; 32],
    }
}

// Whether a line fills the place, in a catalogue of k messages.
fn is_filled(given: bool, k: usize, place: usize) -> bool
    ensures { result ≡ filled given k place }
{
    given && place < k
}

// Whether n is the length of a message of at most `whole` bytes.
fn is_length(whole: usize, n: u32) -> bool
    ensures { result ≡ is_length whole n }
{
    1 <= n && n as usize <= whole
}

// Whether a place may hold n, in a catalogue of k messages of `whole` bytes each.
fn place_fits(given: bool, k: usize, whole: usize, place: usize, n: u32) -> bool
    ensures { result ≡ place_fits given k whole place n }
{
    if is_filled(given, k, place) {
        is_length(whole, n)
    } else {
        n == 0
    }
}

// Whether a catalogue of k messages of `whole` bytes each may hold these lengths.
pub fn fit(l: Lengths, k: usize, whole: usize) -> bool
    ensures { result ≡ lengths_fit k whole l }
{
    for (place, n) in l.places.iter().enumerate() {
        if !place_fits(l.given, k, whole, place, *n) {
            return false;
        }
    }
    true
}

// The bytes of message k, all of whose symbols have `whole` bytes together.
#[tactic(auto, unfolding(crate::specs::Lengths::length_of))]
pub fn length_of(l: Lengths, whole: usize, k: usize) -> usize
    ensures { result ≡ length_of l whole k }
{
    if !l.given {
        return whole;
    }
    match l.places.get(k) {
        Some(n) => *n as usize,
        None => 0,
    }
}
