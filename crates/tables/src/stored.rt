// The arrays of both tables' places as one value, for those who keep them whole. A device that C calls is lent each array by itself.
ghost use Rattle.std.specs.Prelude.{◌≡◌};
ghost use Rattle.rules.specs.Tables.{fresh_arrays};
ghost use Rattle.tables.specs.Arrays.{arrays_of};

use rules::{
    FLOW_WORDS, FlowRows, GroupHeads, GroupMembers, HEAD_WORDS, MAX_FLOWS, MAX_GROUPS, MAX_MEMBERS,
};

/// The places of both tables: a flow is a row of `flows`, a group a row of `heads` and of `members`. How many of them are live is told
/// beside them (`rules::Counts`). It is lent and never copied whole, but where a reading keeps the tables as they stood.
#[derive(Drop)]
pub struct Places {
    pub flows: FlowRows,
    pub heads: GroupHeads,
    pub members: GroupMembers,
}

impl Places {
    /// 256 flow places and 128 group places, all free: every word is 0.
    pub fn new() -> Places
        ensures { arrays_of result ≡ fresh_arrays }
    {
        Places {
            flows: [[0; FLOW_WORDS]; MAX_FLOWS],
            heads: [[0; HEAD_WORDS]; MAX_GROUPS],
            members: [[0; MAX_MEMBERS]; MAX_GROUPS],
        }
    }

    /// Frees all places: every word is 0, so that nothing of what stood there is left.
    pub fn clear(&mut self)
        ensures { arrays_of self.new ≡ fresh_arrays }
    {
        crate::clear(&mut self.flows, &mut self.heads, &mut self.members);
    }
}
