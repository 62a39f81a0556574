// Sessions that no history gives: a field set to any value, nothing checked.
use catalogue::Catalogue;
use session::Session;
use session_parts::Meters;
use trial_bytes::draw;

// The session with another catalogue.
pub fn catalogue(s: Session, c: Catalogue) -> Session {
    let key = s.key;
    let issued = s.issued;
    let taken = s.taken;
    let meters = s.meters;
    Session {
        catalogue: c,
        wanted: s.wanted,
        key: key,
        issued: issued,
        taken: taken,
        meters: meters,
    }
}

// The session with another wanted message.
pub fn wanted(s: Session, wanted: usize) -> Session {
    let mut out = s;
    out.wanted = wanted;
    out
}

// The session with another byte in its key, where there is such a place.
pub fn key(s: Session, place: usize, value: usize) -> Session {
    let mut out = s;
    if place < 2048 {
        out.key[place] = draw::byte(value);
    }
    out
}

// The session with the mark of a query set or taken away, where there is such a place.
pub fn issued(s: Session, place: usize, value: usize) -> Session {
    let mut out = s;
    if place < 16 {
        out.issued[place] = value != 0;
    }
    out
}

// The session with the mark of an answer set or taken away, where there is such a place.
pub fn taken(s: Session, place: usize, value: usize) -> Session {
    let mut out = s;
    if place < 16 {
        out.taken[place] = value != 0;
    }
    out
}

// The last 32 bits.
fn narrow(n: usize) -> u32 {
    (n % 4294967296) as u32
}

// The meters with another number of bytes sent to a place, where there is such a place.
fn with_sent(m: Meters, place: usize, bytes: u32) -> Meters {
    let mut out = m;
    if place < 16 {
        out.sent[place] = bytes;
    }
    out
}

// The meters with another number of bytes got from a place, where there is such a place.
fn with_got(m: Meters, place: usize, bytes: u32) -> Meters {
    let mut out = m;
    if place < 16 {
        out.got[place] = bytes;
    }
    out
}

// The session with another number of bytes sent.
pub fn sent(s: Session, place: usize, value: usize) -> Session {
    let mut out = s;
    out.meters = with_sent(out.meters, place, narrow(value));
    out
}

// The session with another number of bytes got.
pub fn got(s: Session, place: usize, value: usize) -> Session {
    let mut out = s;
    out.meters = with_got(out.meters, place, narrow(value));
    out
}
