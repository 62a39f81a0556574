// Recovery from one row of a query: the answer to it, and the answer to the row that it was joined from.
ghost use Rattle.std.specs.Prelude.{◌≡◌, ◌*◌, ◌≤◌, ◌<◌};
ghost use Rattle.lists.specs.Parts.{lay};
ghost use Rattle.symbol.specs.Operations.{sum_of};
ghost use Rattle.even_recover.specs.Rows.{joined_from, group_symbol, Bounded, Grouped};

use crate::{Answered, Group, ServerRows};

// The row of the answer buffer that row `i` of the group was joined from; the row itself, if the wanted message stands alone in it.
fn joined_from(here: ServerRows, group: Group, i: usize) -> usize
    requires bounded { Bounded here }
    requires grouped { Grouped here group }
    requires i_lt_count { i < group.count }
    ensures { result ≡ joined_from here group i }
{
    if group.messages == 1 {
        return here.server * here.rows + (group.first + i);
    }
    even_layout::other_server(here.server, i / group.each) * here.rows
        + (group.source + i % group.each)
}

impl Answered<'_> {
    // Recovers symbol `number` from row `i` of the group, and writes as much of it as the message has room for: the answer to the row, less
    // the answer to the row that it was joined from.
    pub fn from_row(&self, group: Group, i: usize, number: usize, message: &mut [u8])
        requires grouped { Grouped self.now.here group }
        requires i_lt_count { i < group.count }
        requires number_bound { number ≤ 255 }
        ensures { message.new
            ≡ lay (number * self.now.here.symbol) (group_symbol (sum_of self.now.op) self.now.here group self.now.answers.now i) message.old }
    {
        let size = self.here.symbol;
        let own = (self.here.server * self.here.rows + (group.first + i)) * size;
        let joined = joined_from(self.here, group, i) * size;
        let own_end = own + size;
        let joined_end = joined + size;
        symbol::write_difference(
            self.op,
            group.messages == 1,
            &self.answers[own..own_end],
            &self.answers[joined..joined_end],
            number * size,
            message,
        );
    }
}
