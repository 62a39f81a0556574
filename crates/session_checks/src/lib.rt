// What the calls of a session check of its fields: the catalogue, the wanted message and the key, and the marks and meters of its servers. The code's
// calls by such a key are in keyed.rt; the faults are specs/Checks.antt.
#![tactic(auto)]

ghost use Rattle.std.specs.Prelude.{◌≡◌, length};
ghost use Rattle.refusal.specs.Foremost.{foremost};
ghost use Rattle.refusal.specs.Chain.{chain};
ghost use Rattle.catalogue.specs.Catalogue.{Admitted};
ghost use Rattle.codes.specs.Codes.{scheme_of};
ghost use Rattle.session_checks.specs.Checks.{field_faults, session_faults, named_faults, server_faults, served_faults};

use calendar::Day;
use catalogue::Catalogue;
use refusal::Refusal;

pub mod keyed;

// The marks and meters of a session, held against its other fields.
pub mod held;

// Whether wanted message and key are good.
fn fields_verdict(c: Catalogue, wanted: usize, places: &[u8]) -> Result<(), Refusal>
    requires admitted { Admitted c }
    requires places_len { length places.now ≡ 2048 }
    ensures { result ≡ chain (field_faults scheme_of c wanted places.now) }
{
    if c.messages <= wanted {
        return Err(Refusal::Wanted);
    }
    if !keyed::key_good(c, places) {
        return Err(Refusal::KeyEntry);
    }
    Ok(())
}

// Whether the server is there, and wanted message and key are good.
fn named_verdict(c: Catalogue, wanted: usize, places: &[u8], server: usize) -> Result<(), Refusal>
    requires admitted { Admitted c }
    requires places_len { length places.now ≡ 2048 }
    ensures { result ≡ chain (named_faults scheme_of c wanted places.now server) }
{
    if c.servers <= server {
        return Err(Refusal::Server);
    }
    fields_verdict(c, wanted, places)
}

// Whether a session with these fields can take from this server.
pub fn server_verdict(
    c: Catalogue,
    wanted: usize,
    places: &[u8],
    server: usize,
) -> Result<(), Refusal>
    requires { length places.now ≡ 2048 }
    ensures { result ≡ foremost (server_faults scheme_of c wanted places.now server) }
{
    catalogue::verdict(c)?;
    named_verdict(c, wanted, places, server)
}

// Whether a session with these fields can ask this server today.
pub fn served_verdict(
    c: Catalogue,
    today: Day,
    wanted: usize,
    places: &[u8],
    server: usize,
) -> Result<(), Refusal>
    requires { length places.now ≡ 2048 }
    ensures { result ≡ foremost (served_faults scheme_of c today wanted places.now server) }
{
    catalogue::verdict(c)?;
    catalogue::day_verdict(c, today)?;
    named_verdict(c, wanted, places, server)
}

// Whether a session with these fields can be recovered from, its answers and buffers apart.
pub fn session_verdict(c: Catalogue, wanted: usize, places: &[u8]) -> Result<(), Refusal>
    requires { length places.now ≡ 2048 }
    ensures { result ≡ foremost (session_faults scheme_of c wanted places.now) }
{
    catalogue::verdict(c)?;
    fields_verdict(c, wanted, places)
}
