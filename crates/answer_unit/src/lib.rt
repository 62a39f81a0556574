// The answer unit: the short answering end behind six byte registers (02, item 12). The unit is passed from access to access by value, and any value may
// come in: each access checks its fields again. The rules stand in specs/Registers.antt, register by register.
#![tactic(auto)]

ghost use Rattle.std.specs.Prelude.{◌≡◌};
ghost use Rattle.answer_unit.specs.Unit.{fresh as fresh·, zero_unit};
ghost use Rattle.answer_unit.specs.Registers.{set_up, read_register, write_register, line as line·};

use catalogue::Catalogue;
use refusal::Refusal;

// What a register shows, and what reading it does.
mod reading;
// Whether a unit can be set up, and whether an access is done.
mod verdicts;
// What writing a register does.
mod writing;

#[derive(Clone, Copy)]
pub struct AnswerUnit {
    // The set-up.
    pub catalogue: Catalogue,
    pub server: usize,
    // Register 0, bit 1: interrupt enable.
    pub enable: bool,
    // Register 5, bit 0: the interrupt flag.
    pub flag: bool,
    // Register 1, bit 2: a byte of the query was dropped.
    pub overrun: bool,
    // The query (01: request) so far: the first `held` places. A buffer and a length: fixed memory, no heap.
    pub held: usize,
    pub query: [u8; 32],
    // Register 1, bit 1, and register 4: how the last start ended. A bit and a number, and no `Option<Refusal>`: a unit may come in with any two
    // (`status_of`, `shown`), and a narrower type would ask more of callers.
    pub refused: bool,
    pub refusal: u8,
    // The answer, of S bytes, of which the last `waiting` are still to be read.
    pub waiting: usize,
    pub answer: [u8; 64],
}

// What set-up and a write hand back. A verdict beside the unit, and no `Result` of it: a unit passes by value, a rule of the project, and a refused access
// hands it back as it was (`read_by`, `write_by`).
#[derive(Clone, Copy)]
pub struct Handed {
    pub verdict: Result<(), Refusal>,
    pub unit: AnswerUnit,
}

// What a read hands back, for the same reason with its verdict beside it.
#[derive(Clone, Copy)]
pub struct Got {
    pub verdict: Result<(), Refusal>,
    pub byte: u8,
    pub unit: AnswerUnit,
}

// The unit after set-up and after reset.
fn fresh(c: Catalogue, server: usize) -> AnswerUnit
    ensures { result ≡ fresh· c server }
{
    AnswerUnit {
        catalogue: c,
        server,
        enable: false,
        flag: false,
        overrun: false,
        held: 0,
        query: [0; 32],
        refused: false,
        refusal: 0,
        waiting: 0,
        answer: [0; 64],
    }
}

impl AnswerUnit {
    // Zeros, the code short, the sum exclusive or: a unit that was never set up, and what a refused set-up hands back.
    pub fn blank() -> AnswerUnit
        ensures { result ≡ zero_unit }
    {
        fresh(catalogue::zero(), 0)
    }

    // Sets up a new unit, for a catalogue and one of its servers (01: mirrors); the old one is not read.
    pub fn set_up(self, c: Catalogue, server: usize) -> Handed
        ensures { result ≡ set_up c server }
    {
        let verdict = verdicts::set_up_verdict(c, server);
        if let Err(_) = verdict {
            return Handed {
                verdict,
                unit: AnswerUnit::blank(),
            };
        }
        Handed {
            verdict: Ok(()),
            unit: fresh(c, server),
        }
    }

    // Reads a register.
    pub fn read(self, register: usize, store: &[u8]) -> Got
        ensures { result ≡ read_register self register store.now }
    {
        let verdict = verdicts::access_verdict(self, register, store.len());
        if let Err(_) = verdict {
            return Got {
                verdict,
                byte: 0,
                unit: self,
            };
        }
        Got {
            verdict: Ok(()),
            byte: reading::shown(self, register),
            unit: reading::after_read(self, register),
        }
    }

    // Writes a register.
    pub fn write(self, register: usize, value: u8, store: &[u8]) -> Handed
        ensures { result ≡ write_register self register value store.now }
    {
        let verdict = verdicts::access_verdict(self, register, store.len());
        if let Err(_) = verdict {
            return Handed {
                verdict,
                unit: self,
            };
        }
        Handed {
            verdict: Ok(()),
            unit: writing::after_write(self, register, value, store),
        }
    }

    // The interrupt line. It is no access, and nothing refuses it.
    pub fn line(self) -> bool
        ensures { result ≡ line· self }
    {
        if self.flag {
            return self.enable;
        }
        false
    }
}
