// Changes, kept one behind another.
ghost use Rattle.std.specs.Prelude.{◌≡◌, ◌+◌, ◌*◌, ◌≤◌, [], ◌∷◌, length};
ghost use Rattle.rule_writer.specs.Inner.Writes.{changes_in};
ghost use Rattle.change_records.specs.Inner.Recorded.{idle, change_at, Keeps, Recorded};

use crate::{FIRST_CHANGE, MOST_CHANGES};
use rule_writer::{Changes, store};
use task::Table;
use task::table_rows::row_at;

// Whether a change brings no rule.
#[tactic(auto, unfolding(crate::specs::Inner::Recorded::idle))]
fn brings_none(c: Changes) -> bool
    ensures { result ≡ idle (changes_in c) }
{
    c.adds == 0 && c.deletes == 0
}

// A change behind k of them, unless it brings no rule; past the room it is counted only. Answers how many there are then. Constant time, as is the one below.
pub fn keep_change(records: &mut [u16], k: usize, c: Changes) -> usize
    requires { Keeps k records.old }
    ensures { Recorded (changes_in c ∷ []) k records.old records.new result }
{
    if brings_none(c) {
        return k;
    }
    if k < MOST_CHANGES {
        store(records, FIRST_CHANGE + k, c.variable, c.adds, c.deletes);
    }
    k + 1
}

// Change k.
#[tactic(auto, unfolding(crate::specs::Inner::Recorded::change_at))]
pub fn kept_change(records: &[u16], k: usize) -> Changes
    requires { 3 * (256 + k) + 3 ≤ length records.now }
    ensures { changes_in result ≡ change_at records.now k }
{
    let row = row_at(Table::Effects, records, FIRST_CHANGE + k);
    Changes {
        variable: row.first,
        adds: row.second,
        deletes: row.third,
    }
}
