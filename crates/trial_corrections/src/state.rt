// What stands between two calls, beside the store, the queries and the saved answers, which the loop over the lines holds.
use catalogue::Catalogue;
use correction::Edit;
use trial_bytes::draw;
use trial_bytes::input::Line;
use trials::state;
use trials::state::Given;

// A server, and where its query and its saved answer begin and end.
#[derive(Clone, Copy)]
pub struct Saved {
    pub server: usize,
    pub query: usize,
    pub query_end: usize,
    pub answer: usize,
    pub answer_end: usize,
}

#[derive(Clone, Copy)]
pub struct State {
    pub catalogue: Catalogue,
    pub edit: Edit,
    pub saved: Saved,
    // Bytes of the store that are lent.
    pub store: usize,
    pub given: Given,
}

// E MESSAGE SYMBOL BYTE VALUE: an edit.
pub fn edit_of(line: Line) -> Edit {
    Edit {
        message: line.a,
        symbol: line.b,
        byte: line.c,
        value: draw::byte(line.d),
    }
}

// w SERVER QUERY END ANSWER END: a server, its query and its saved answer.
pub fn saved_of(line: Line) -> Saved {
    Saved {
        server: line.a,
        query: line.b,
        query_end: line.c,
        answer: line.d,
        answer_end: line.e,
    }
}

// Before the first call.
pub fn first() -> State {
    State {
        catalogue: catalogue::zero(),
        edit: Edit {
            message: 0,
            symbol: 0,
            byte: 0,
            value: 0,
        },
        saved: Saved {
            server: 0,
            query: 0,
            query_end: 0,
            answer: 0,
            answer_end: 0,
        },
        store: 0,
        given: state::nothing(),
    }
}

impl State {
    pub fn with_catalogue(mut self, c: Catalogue) -> State {
        self.catalogue = c;
        self
    }

    pub fn with_edit(mut self, edit: Edit) -> State {
        self.edit = edit;
        self
    }

    pub fn with_saved(mut self, saved: Saved) -> State {
        self.saved = saved;
        self
    }

    pub fn with_store(mut self, store: usize) -> State {
        self.store = store;
        self
    }

    pub fn with_given(mut self, given: Given) -> State {
        self.given = given;
        self
    }
}
