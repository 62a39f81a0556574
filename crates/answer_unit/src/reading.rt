// What a register shows, and what reading it does.
ghost use Rattle.std.specs.Prelude.{◌≡◌, ◌≤◌};
ghost use Rattle.answer_unit.specs.Unit.{weigh};
ghost use Rattle.answer_unit.specs.Registers.{status_of, next_byte, shown as shown·, after_read};

use crate::AnswerUnit;

// A bit at its place.
fn weighed(there: bool, weight: u8) -> u8
    ensures { result ≡ weigh there weight }
{
    if there {
        return weight;
    }
    0
}

// What register 1 shows.
fn status(unit: AnswerUnit) -> u8
    ensures { result ≡ status_of unit }
{
    weighed(0 < unit.waiting, 1) + weighed(unit.refused, 2) + weighed(unit.overrun, 4)
}

// What register 3 shows.
fn next_byte(unit: AnswerUnit) -> u8
    requires waiting_le_symbol { unit.waiting ≤ unit.catalogue.symbol }
    requires symbol_bound { unit.catalogue.symbol ≤ 64 }
    ensures { result ≡ next_byte unit }
{
    if unit.waiting == 0 {
        return 0;
    }
    let at = unit.catalogue.symbol - unit.waiting;
    unit.answer[at]
}

// What a register shows. Its number, and no enum: the rules go by the numbers, and whether there is such a register is the access's verdict.
pub fn shown(unit: AnswerUnit, register: usize) -> u8
    requires register_bound { register ≤ 5 }
    requires waiting_le_symbol { unit.waiting ≤ unit.catalogue.symbol }
    requires symbol_bound { unit.catalogue.symbol ≤ 64 }
    ensures { result ≡ shown· unit register }
{
    match register {
        0 => weighed(unit.enable, 2),
        1 => status(unit),
        2 => 0,
        3 => next_byte(unit),
        4 => unit.refusal,
        _ => weighed(unit.flag, 1),
    }
}

// The unit after a register was read.
pub fn after_read(mut unit: AnswerUnit, register: usize) -> AnswerUnit
    ensures { result ≡ after_read unit register }
{
    if register == 3 {
        if 0 < unit.waiting {
            unit.waiting = unit.waiting - 1;
        }
    }
    unit
}
