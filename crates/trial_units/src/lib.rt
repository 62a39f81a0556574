// What the conformance program of the answer unit is made of: its calls, units with a field set, and what stands between two calls. Proved safe and to
// end, like all test programs.
#![tactic(auto)]

use state::State;
use trial_bytes::input::Line;
use trial_lines::catalogues;

// The calls.
pub mod calls;
// Units with a field set.
pub mod forged;
// What stands between two calls.
pub mod state;

// Lines that set the catalogue of later set-ups, days, lengths, or a field of the unit.
pub fn on_given(s: State, line: Line) -> State {
    let unit = s.unit;
    let letter = line.letter;
    match letter {
        b'C' => s.with_catalogue(catalogues::catalogue_of(s.given, line)),
        b'f' | b'l' => s.with_given(catalogues::set_day(s.given, line)),
        b'p' | b'm' => s.with_given(catalogues::set_lengths(s.given, line)),
        b'g' => s.with_unit(forged::catalogue(unit, catalogues::catalogue_of(s.given, line))),
        _ => s.with_unit(forged::on_letter(unit, line)),
    }
}
