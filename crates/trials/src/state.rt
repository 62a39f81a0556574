// What stands between two calls, beside the lent buffers, which main holds.
use calendar::Day;
use catalogue::Catalogue;
use lengths::Lengths;
use session::Session;

// The dates and lengths that a catalogue of numbers is given, and the day of the calls.
#[derive(Clone, Copy)]
pub struct Given {
    pub opening: Day,
    pub closing: Day,
    pub lengths: Lengths,
    pub today: Day,
}

#[derive(Clone, Copy)]
pub struct State {
    pub catalogue: Catalogue,
    pub session: Session,
    // Bytes of the key, and of the store, that are lent.
    pub key: usize,
    pub store: usize,
    pub given: Given,
}

// No dates, no lengths, and no day.
pub fn nothing() -> Given {
    Given {
        opening: calendar::none(),
        closing: calendar::none(),
        lengths: lengths::none(),
        today: calendar::none(),
    }
}

// Before the first call.
pub fn first() -> State {
    State {
        catalogue: catalogue::zero(),
        session: Session::blank(),
        key: 0,
        store: 0,
        given: nothing(),
    }
}

impl State {
    pub fn with_catalogue(self, c: Catalogue) -> State {
        let session = self.session;
        let given = self.given;
        State {
            catalogue: c,
            session: session,
            key: self.key,
            store: self.store,
            given: given,
        }
    }

    pub fn with_session(self, s: Session) -> State {
        let catalogue = self.catalogue;
        let given = self.given;
        State {
            catalogue: catalogue,
            session: s,
            key: self.key,
            store: self.store,
            given: given,
        }
    }

    pub fn with_lengths(self, key: usize, store: usize) -> State {
        let catalogue = self.catalogue;
        let session = self.session;
        let given = self.given;
        State {
            catalogue: catalogue,
            session: session,
            key: key,
            store: store,
            given: given,
        }
    }

    pub fn with_given(self, given: Given) -> State {
        let catalogue = self.catalogue;
        let session = self.session;
        State {
            catalogue: catalogue,
            session: session,
            key: self.key,
            store: self.store,
            given: given,
        }
    }
}
