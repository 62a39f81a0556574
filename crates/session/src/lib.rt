// The session: one fetch, from its key to its message, passed from call to call by value. Its calls are defined in specs/Calls.antt.
// Each has a function for its verdict; refused, it hands back what it was given, else it writes, and marks the session.
#![tactic(auto)]

ghost use Rattle.std.specs.Prelude.{◌≡◌, ◌+◌, ◌≤◌, ◌<◌, length};
ghost use Rattle.codes.specs.Codes.{scheme_of};
ghost use Rattle.session_parts.specs.Meters.{counted};
ghost use Rattle.session.specs.Fields.{zero_session, new_session, mark_issued, mark_taken};
ghost use Rattle.session.specs.Calls.{Did};
ghost use Rattle.session.specs.Calls.{begin as begin·, issue as issue·, take_answer, recover as recover·, bound as bound·};

use calendar::Day;
use catalogue::Catalogue;
use refusal::Refusal;
use session_checks::keyed;
use session_parts::Meters;

// The verdict of each call.
mod verdicts;

// What a fetch holds between its calls. Any value may come in: each call checks the fields again.
#[derive(Clone, Copy)]
pub struct Session {
    pub catalogue: Catalogue,
    // The number of the message that is fetched (01: k).
    pub wanted: usize,
    // The key, then places that are not used: 0 after begin, and neither read nor checked later. Fixed memory, no heap; the catalogue says how long it is.
    pub key: [u8; 2048],
    // For each server, whether a query was issued to it. Arrays side by side: callers read `issued`, `taken` and `meters` by these names.
    pub issued: [bool; 16],
    // For each server, whether its answer was taken.
    pub taken: [bool; 16],
    // For each server, the bytes of the queries issued to it and of the answer taken from it.
    pub meters: Meters,
}

// What a call on a session hands back. A verdict beside the session, and no `Result` of it: a session passes by value, a rule of the project, and a
// refused call hands it back as it was (`Unchanged`).
#[derive(Clone, Copy)]
pub struct Handed {
    pub verdict: Result<(), Refusal>,
    pub session: Session,
}

// A session at the start of a fetch.
fn new_session(catalogue: Catalogue, wanted: usize, key: &[u8]) -> Session
    requires { length key.now ≤ 2048 }
    ensures { result ≡ new_session catalogue wanted key.now }
{
    let places = session_parts::padded_key(key);
    Session {
        catalogue,
        wanted,
        key: places,
        issued: [false; 16],
        taken: [false; 16],
        meters: session_parts::no_meters(),
    }
}

// An upper bound on the bytes that a fetch receives: N slots.
pub fn bound(catalogue: Catalogue) -> Result<usize, Refusal>
    ensures { result ≡ bound· scheme_of catalogue }
{
    catalogue::verdict(catalogue)?;
    let sizes = keyed::sizes_of(catalogue);
    Ok(catalogue.servers * sizes.slot)
}

impl Session {
    // Zeros, the code short, the sum exclusive or: a first value, that the session of a fetch takes the place of, and what a refused begin hands back.
    pub fn blank() -> Session
        ensures { result ≡ zero_session }
    {
        Session {
            catalogue: catalogue::zero(),
            wanted: 0,
            key: [0; 2048],
            issued: [false; 16],
            taken: [false; 16],
            meters: session_parts::no_meters(),
        }
    }

    // Begins a fetch, in a new session; the old one is not read.
    pub fn begin(self, catalogue: Catalogue, wanted: usize, key: &[u8]) -> Handed
        ensures { result ≡ begin· scheme_of catalogue wanted key.now }
    {
        let verdict = verdicts::begin_verdict(catalogue, wanted, key);
        if let Err(_) = verdict {
            return Handed {
                verdict,
                session: Session::blank(),
            };
        }
        Handed {
            verdict: Ok(()),
            session: new_session(catalogue, wanted, key),
        }
    }

    // Writes a server's query (01: a mirror's request) at the start of `query`, on a day in the catalogue's season; again, the same bytes.
    pub fn issue(self, today: Day, server: usize, query: &mut [u8]) -> Handed
        ensures { Did (issue· scheme_of self today server query.old) result query.new }
    {
        let verdict = verdicts::issue_verdict(self, today, server, query.len());
        if let Err(_) = verdict {
            return Handed {
                verdict,
                session: self,
            };
        }
        let bytes = keyed::write_query(self.catalogue, self.wanted, &self.key, server, query);
        Handed {
            verdict: Ok(()),
            session: self.mark_issued(server, bytes),
        }
    }

    // Takes a server's answer, into the server's slot of `answers`.
    pub fn take(self, server: usize, answer: &[u8], answers: &mut [u8]) -> Handed
        ensures { Did (take_answer scheme_of self server answer.now answers.old) result answers.new }
    {
        let verdict = verdicts::take_verdict(self, server, answer.len(), answers.len());
        if let Err(_) = verdict {
            return Handed {
                verdict,
                session: self,
            };
        }
        let sizes = keyed::sizes_of(self.catalogue);
        session_parts::put_answer(answers, server * sizes.slot, answer);
        Handed {
            verdict: Ok(()),
            session: self.mark_taken(server, answer.len()),
        }
    }

    // Writes the wanted message (01: pack) at the start of `message`, from the answers in their slots; the session stays as it was.
    pub fn recover(self, answers: &[u8], message: &mut [u8]) -> Handed
        ensures { Did (recover· scheme_of self answers.now message.old) result message.new }
    {
        let verdict = verdicts::recover_verdict(self, answers.len(), message.len());
        if let Err(_) = verdict {
            return Handed {
                verdict,
                session: self,
            };
        }
        keyed::write_message(self.catalogue, self.wanted, &self.key, answers, message);
        Handed {
            verdict: Ok(()),
            session: self,
        }
    }

    // The session with the mark that a query was issued to the server, and its bytes counted.
    fn mark_issued(mut self, server: usize, bytes: usize) -> Self
        requires server_bound { server < 16 }
        requires bytes_bound { counted self.meters.sent server + bytes ≤ 4294967295 }
        ensures { result ≡ mark_issued self server bytes }
    {
        self.issued[server] = true;
        self.meters = session_parts::count_issued(self.meters, server, bytes);
        self
    }

    // The session with the mark that the server's answer was taken, and its bytes counted.
    fn mark_taken(mut self, server: usize, bytes: usize) -> Self
        requires server_bound { server < 16 }
        requires bytes_bound { counted self.meters.got server + bytes ≤ 4294967295 }
        ensures { result ≡ mark_taken self server bytes }
    {
        self.taken[server] = true;
        self.meters = session_parts::count_taken(self.meters, server, bytes);
        self
    }
}
