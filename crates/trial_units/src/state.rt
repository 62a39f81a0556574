// What stands between two calls, beside the store, which the loop over the lines holds.
use answer_unit::AnswerUnit;
use catalogue::Catalogue;
use trials::state;
use trials::state::Given;

#[derive(Clone, Copy)]
pub struct State {
    // The catalogue of later set-ups.
    pub catalogue: Catalogue,
    pub unit: AnswerUnit,
    // Bytes of the store that are lent.
    pub store: usize,
    pub given: Given,
}

// Before the first call.
pub fn first() -> State {
    State {
        catalogue: catalogue::zero(),
        unit: AnswerUnit::blank(),
        store: 0,
        given: state::nothing(),
    }
}

impl State {
    pub fn with_catalogue(mut self, c: Catalogue) -> State {
        self.catalogue = c;
        self
    }

    pub fn with_unit(mut self, unit: AnswerUnit) -> State {
        self.unit = unit;
        self
    }

    pub fn with_store(mut self, store: usize) -> State {
        self.store = store;
        self
    }

    pub fn with_given(mut self, given: Given) -> State {
        self.given = given;
        self
    }
}
