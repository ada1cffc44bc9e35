// The flow table and the group table, changed where they stand: the caller lends the arrays of their places. A command finds the place of
// its key and changes that place, and those behind it where an entry is put in or taken out.

#![tactic(auto)]

ghost use Rattle.std.specs.Prelude.{◌≡◌};
ghost use Rattle.rules.specs.Tables.{arrays, fresh_arrays};
ghost use Rattle.tables.specs.Commands.{status_of};

use rules::{
    FLOW_WORDS, FlowRows, GroupHeads, GroupMembers, HEAD_WORDS, MAX_FLOWS, MAX_GROUPS, MAX_MEMBERS,
    Status,
};

mod flows;
mod groups;
mod places;
mod stored;

pub use flows::{flow_add, flow_del, flow_mod};
pub use groups::{group_add, group_del, group_mod};
pub use places::{Keyed, close, free_place, held_place, live, open, place};
pub use stored::Places;

/// The status that completes a command, by what it gave.
pub fn status<T>(outcome: &Result<T, Status>) -> Status
    ensures { result ≡ status_of outcome.now }
{
    match outcome {
        Ok(_) => Status::Ok,
        Err(status) => *status,
    }
}

// 256 flow places and 128 group places, all free: every word is 0, so that nothing of what stood there is left.
pub fn clear(flows: &mut FlowRows, heads: &mut GroupHeads, members: &mut GroupMembers)
    ensures { arrays flows.new heads.new members.new ≡ fresh_arrays }
{
    *flows = [[0; FLOW_WORDS]; MAX_FLOWS];
    *heads = [[0; HEAD_WORDS]; MAX_GROUPS];
    *members = [[0; MAX_MEMBERS]; MAX_GROUPS];
}
