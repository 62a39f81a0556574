// What a session holds of its fetch, once its catalogue, wanted message and key are good: its marks and meters are held against these, and a call is refused
// that they do not allow (document 02, item 5).
ghost use Rattle.std.specs.Prelude.{◌≡◌, true, [], ◌∷◌, ◌++◌, ◌≤◌, ◌<◌};
ghost use Rattle.refusal.specs.Chain.{chain};
ghost use Rattle.codes.specs.Codes.{scheme_of};
ghost use Rattle.session_parts.specs.Marks.{marks_good};
ghost use Rattle.session_parts.specs.Meters.{counted, got_good};
ghost use Rattle.session_checks.specs.Checks.{full_fault, due_faults, missing_fault, answer_bytes, meters_fit};
ghost use Rattle.session_checks.specs.Holding.{Checked, history_of};

use catalogue::Catalogue;
use refusal::Refusal;
use session_parts::Meters;

// The fields of a session, and how many bytes a query has.
#[derive(Clone, Copy)]
pub struct Held<'a> {
    pub catalogue: Catalogue,
    pub query: usize,
    pub wanted: usize,
    pub key: &'a [u8],
    pub issued: &'a [bool; 16],
    pub taken: &'a [bool; 16],
    pub meters: Meters,
}

impl<'a> Held<'a> {
    // Whether one more query can be counted for a server.
    pub fn sent_verdict(self, server: usize) -> Result<(), Refusal>
        requires checked { Checked self }
        requires server_bound { server < 16 }
        ensures { result ≡ chain (history_of self.entry ++ (full_fault self.entry.meters server (scheme_of self.entry.catalogue).sizes.query ∷ [])) }
    {
        self.history_verdict()?;
        if session_parts::meter_full(self.meters, server, self.query) {
            return Err(Refusal::MeterFull);
        }
        Ok(())
    }

    // Whether the answer of a server is due.
    pub fn due_verdict(self, server: usize) -> Result<(), Refusal>
        requires checked { Checked self }
        requires server_bound { server < 16 }
        ensures { result ≡ chain (history_of self.entry ++ due_faults self.entry.issued.now self.entry.taken.now server) }
    {
        self.history_verdict()?;
        let issued = self.issued[server];
        let taken = self.taken[server];
        if !issued {
            return Err(Refusal::History);
        }
        if taken {
            return Err(Refusal::History);
        }
        Ok(())
    }

    // Whether every answer was taken.
    pub fn missing_verdict(self) -> Result<(), Refusal>
        requires checked { Checked self }
        requires servers_bound { self.catalogue.servers ≤ 16 }
        ensures { result ≡ chain (history_of self.entry ++ (missing_fault self.entry.catalogue.servers self.entry.taken.now ∷ [])) }
    {
        self.history_verdict()?;
        if !session_parts::all_taken(self.catalogue.servers, self.taken) {
            return Err(Refusal::Missing);
        }
        Ok(())
    }

    // Whether some history of calls gives these marks, and these meters together with the other fields.
    fn history_verdict(self) -> Result<(), Refusal>
        requires { Checked self }
        ensures { result ≡ chain (history_of self.entry) }
    {
        if !session_parts::marks_good(self.catalogue.servers, self.issued, self.taken) {
            return Err(Refusal::History);
        }
        if !self.meters_good() {
            return Err(Refusal::History);
        }
        Ok(())
    }

    // Whether some history of calls gives all these meters, with these marks, which one gives.
    fn meters_good(self) -> bool
        requires checked { Checked self }
        requires taken_value { marks_good self.catalogue.servers self.issued.now self.taken.now ≡ true }
        ensures { result
            ≡ meters_fit scheme_of self.entry.catalogue self.entry.wanted self.entry.key.now self.entry.issued.now self.entry.taken.now
            self.entry.meters }
    {
        let issued = self.issued;
        let taken = self.taken;
        let sent = self.meters.sent;
        for i in 0..16 {
            if !session_parts::sent_good(self.query, issued[i], sent[i]) {
                return false;
            }
            if !self.got_good(i, taken[i]) {
                return false;
            }
        }
        true
    }

    // Whether one answer of a server, if its mark is set, and else none, has as many bytes as its meter says.
    fn got_good(self, server: usize, taken: bool) -> bool
        requires checked { Checked self }
        requires server_bound { server < 16 }
        requires server_lt_servers { taken ≡ true → server < self.catalogue.servers }
        ensures { result
            ≡ got_good (answer_bytes scheme_of self.entry.catalogue self.entry.wanted self.entry.key.now server) taken
            (counted self.entry.meters.got server) }
    {
        let got = self.meters.got;
        if !taken {
            return got[server] == 0;
        }
        got[server] as usize
            == codes::expected_length(self.catalogue, self.wanted, server, self.key)
    }
}
