// Whether a unit can be set up, and whether an access to it is done: the faults of each, in their order.
ghost use Rattle.std.specs.Prelude.{◌≡◌};
ghost use Rattle.answer_unit.specs.Registers.{unit_takes, set_up_verdict, access_verdict};

use crate::AnswerUnit;
use catalogue::{Catalogue, Code};
use parameters::short;
use refusal::Refusal;
use symbol::Operation;

// Whether the unit takes such a catalogue: short, exclusive or, no dates, S up to 64.
#[tactic(auto, unfolding(crate::specs::Registers::unit_takes))]
fn takes(c: Catalogue) -> bool
    ensures { result ≡ unit_takes c }
{
    c.code == Code::Short
        && c.sum == Operation::ExclusiveOr
        && calendar::are_none(c.opening, c.closing)
        && c.symbol <= 64
}

// Whether a unit can be set up.
pub fn set_up_verdict(c: Catalogue, server: usize) -> Result<(), Refusal>
    ensures { result ≡ set_up_verdict c server }
{
    if !takes(c) {
        return Err(Refusal::Bounds);
    }
    catalogue::verdict(c)?;
    if c.servers <= server {
        return Err(Refusal::Server);
    }
    Ok(())
}

// Whether an access to the register, with a store of `stored` bytes, is done.
pub fn access_verdict(unit: AnswerUnit, register: usize, stored: usize) -> Result<(), Refusal>
    ensures { result ≡ access_verdict unit register stored }
{
    if 5 < register {
        return Err(Refusal::Register);
    }
    let c = unit.catalogue;
    set_up_verdict(c, unit.server)?;
    let sizes = short::sizes(c.servers, c.messages, c.symbol);
    if stored != sizes.store {
        return Err(Refusal::StoreLength);
    }
    if 32 < unit.held {
        return Err(Refusal::History);
    }
    if c.symbol < unit.waiting {
        return Err(Refusal::History);
    }
    Ok(())
}
