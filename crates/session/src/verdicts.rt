// The verdicts of the session's calls, from the session's own fields and the call's inputs: the faults of each, in their order.
ghost use Rattle.std.specs.Prelude.{◌≡◌, ◌≤◌};
ghost use Rattle.codes.specs.Codes.{scheme_of};
ghost use Rattle.session.specs.Held.{IsHeld};
ghost use Rattle.session.specs.Calls.{begin_verdict, issue_verdict, take_verdict, recover_verdict};

use crate::Session;
use calendar::Day;
use catalogue::Catalogue;
use parameters::Sizes;
use refusal::Refusal;
use session_checks::held::Held;
use session_checks::keyed;

// What the session holds of its fetch, under a catalogue of these sizes.
fn held<'a>(s: &'a Session, sizes: Sizes) -> Held<'a>
    requires { sizes.key ≤ 2048 }
    ensures { IsHeld s.now sizes result }
{
    Held {
        catalogue: s.catalogue,
        query: sizes.query,
        wanted: s.wanted,
        key: &s.key[..sizes.key],
        issued: &s.issued,
        taken: &s.taken,
        meters: s.meters,
    }
}

// Whether a fetch can begin.
pub fn begin_verdict(catalogue: Catalogue, wanted: usize, key: &[u8]) -> Result<(), Refusal>
    ensures { result ≡ begin_verdict scheme_of catalogue wanted key.now }
{
    catalogue::verdict(catalogue)?;
    if catalogue.messages <= wanted {
        return Err(Refusal::Wanted);
    }
    let sizes = keyed::sizes_of(catalogue);
    if key.len() != sizes.key {
        return Err(Refusal::KeyLength);
    }
    if !codes::key_good(catalogue, key) {
        return Err(Refusal::KeyEntry);
    }
    Ok(())
}

// Whether a query can be issued today.
pub fn issue_verdict(s: Session, today: Day, server: usize, room: usize) -> Result<(), Refusal>
    ensures { result ≡ issue_verdict scheme_of s today server room }
{
    session_checks::served_verdict(s.catalogue, today, s.wanted, &s.key, server)?;
    let sizes = keyed::sizes_of(s.catalogue);
    if room < sizes.query {
        return Err(Refusal::Room);
    }
    held(&s, sizes).sent_verdict(server)
}

// Whether an answer of `size` bytes can be taken.
pub fn take_verdict(s: Session, server: usize, size: usize, room: usize) -> Result<(), Refusal>
    ensures { result ≡ take_verdict scheme_of s server size room }
{
    session_checks::server_verdict(s.catalogue, s.wanted, &s.key, server)?;
    let sizes = keyed::sizes_of(s.catalogue);
    if room < s.catalogue.servers * sizes.slot {
        return Err(Refusal::Room);
    }
    if size != keyed::answer_length(s.catalogue, s.wanted, &s.key, server) {
        return Err(Refusal::AnswerLength);
    }
    held(&s, sizes).due_verdict(server)
}

// Whether the message can be recovered.
pub fn recover_verdict(s: Session, answers: usize, message: usize) -> Result<(), Refusal>
    ensures { result ≡ recover_verdict scheme_of s answers message }
{
    session_checks::session_verdict(s.catalogue, s.wanted, &s.key)?;
    let sizes = keyed::sizes_of(s.catalogue);
    if answers < s.catalogue.servers * sizes.slot {
        return Err(Refusal::Room);
    }
    if message < keyed::message_length(s.catalogue, s.wanted) {
        return Err(Refusal::Room);
    }
    held(&s, sizes).missing_verdict()
}
