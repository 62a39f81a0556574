// What writing a register does.
ghost use Rattle.std.specs.Prelude.{◌≡◌, ◌≤◌, ◌<◌};
ghost use Rattle.answer_unit.specs.Unit.{bit as bit·};
ghost use Rattle.answer_unit.specs.Registers.{append as append·, acknowledge as acknowledge·, ended_by, answer_of, start as start·};
ghost use Rattle.answer_unit.specs.Registers.{control as control·, after_write};

use crate::AnswerUnit;
use refusal::Refusal;

// The bit of a weight in a byte.
fn bit(weight: u8, value: u8) -> bool
    requires { 0 < weight }
    ensures { result ≡ bit· weight value }
{
    value / weight % 2 == 1
}

// Register 2: a byte of the query.
fn append(mut unit: AnswerUnit, value: u8) -> AnswerUnit
    ensures { result ≡ append· unit value }
{
    let at = unit.held;
    if 32 <= at {
        unit.overrun = true;
        return unit;
    }
    unit.query[at] = value;
    unit.held = at + 1;
    unit
}

// Register 5: the flag is cleared.
fn acknowledge(mut unit: AnswerUnit, value: u8) -> AnswerUnit
    ensures { result ≡ acknowledge· unit value }
{
    if bit(1, value) {
        unit.flag = false;
    }
    unit
}

// Register 4, the refused bit and the bytes that wait, by what came out.
fn ended(mut unit: AnswerUnit, outcome: Result<usize, Refusal>) -> AnswerUnit
    ensures { result ≡ ended_by unit outcome unit.answer }
{
    match outcome {
        Ok(size) => {
            unit.refused = false;
            unit.refusal = 0;
            unit.waiting = size;
            unit
        }
        Err(refusal) => {
            unit.refused = true;
            unit.refusal = refusal::number(refusal);
            unit.waiting = 0;
            unit
        }
    }
}

// The bytes so far are answered.
fn answered(mut unit: AnswerUnit, store: &[u8]) -> AnswerUnit
    requires { unit.held ≤ 32 }
    ensures { result ≡ answer_of unit store.now }
{
    if unit.overrun {
        return ended(unit, Err(Refusal::Query));
    }
    let mut answer = unit.answer;
    let outcome = server::answer(
        unit.catalogue,
        calendar::none(),
        unit.server,
        store,
        &unit.query[..unit.held],
        &mut answer,
    );
    unit.answer = answer;
    ended(unit, outcome)
}

// A start.
fn start(unit: AnswerUnit, store: &[u8]) -> AnswerUnit
    requires { unit.held ≤ 32 }
    ensures { result ≡ start· unit store.now }
{
    let mut after = answered(unit, store);
    after.overrun = false;
    after.held = 0;
    after.flag = true;
    after
}

// Register 0: reset, interrupt enable, start.
fn control(mut unit: AnswerUnit, value: u8, store: &[u8]) -> AnswerUnit
    requires { unit.held ≤ 32 }
    ensures { result ≡ control· unit value store.now }
{
    if bit(128, value) {
        return crate::fresh(unit.catalogue, unit.server);
    }
    unit.enable = bit(2, value);
    if bit(1, value) {
        if unit.waiting == 0 {
            return start(unit, store);
        }
    }
    unit
}

// The unit after a register was written.
pub fn after_write(unit: AnswerUnit, register: usize, value: u8, store: &[u8]) -> AnswerUnit
    requires register_bound { register ≤ 5 }
    requires held_bound { unit.held ≤ 32 }
    ensures { result ≡ after_write unit register value store.now }
{
    match register {
        0 => control(unit, value, store),
        1 => unit,
        2 => append(unit, value),
        3 => unit,
        4 => unit,
        _ => acknowledge(unit, value),
    }
}
