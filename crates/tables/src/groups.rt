// The commands on the group table. A group stands in two arrays at one index: its head, and its 62 members, which are stored whole.
ghost use Rattle.std.specs.Prelude.{◌≢◌, IfErr};
ghost use Rattle.rules.specs.declared.Status.TheVariants.{Ok};
ghost use Rattle.rules.specs.Rows.{id_in};
ghost use Rattle.rules.specs.Tables.{id_of};
ghost use Rattle.std.specs.Result.{result_unwrap_or};
ghost use Rattle.tables.specs.Commands.{Added, Modded, Deleted, status_of};
ghost use Rattle.tables.specs.Groups.{group_places, groups_in};
ghost use Rattle.rules.specs.Limits.{max_groups};

use crate::{Keyed, close, free_place, held_place, open};
use rules::{GroupEntry, GroupHead, GroupHeads, GroupMembers, MAX_GROUPS, Status};

impl Keyed for GroupHead {
    ghost key = { id_in };

    fn key(&self) -> u64 {
        u64::from(self[0])
    }
}

/// Puts a group in before the first that has a higher ID. Given back is the number of live groups after it; an error leaves both arrays.
pub fn group_add(
    heads: &mut GroupHeads,
    members: &mut GroupMembers,
    count: usize,
    g: GroupEntry,
) -> Result<usize, Status>
    ensures outcome { Added groups_in id_of max_groups (group_places count heads.old members.old) g (status_of result) (group_places (result_unwrap_or result count) heads.new members.new) }
    ensures refusal { IfErr result (λ e. e ≢ Ok) }
{
    let at = free_place(&heads[..], count, u64::from(g.id))?;
    let live = count.min(MAX_GROUPS);
    open(&mut heads[..], live, at, rows::head_of(g));
    open(&mut members[..], live, at, g.members);
    Ok(live + 1)
}

/// Replaces the group with this ID.
pub fn group_mod(
    heads: &mut GroupHeads,
    members: &mut GroupMembers,
    count: usize,
    g: GroupEntry,
) -> Result<usize, Status>
    ensures outcome { Modded groups_in id_of max_groups (group_places count heads.old members.old) g (status_of result) (group_places (result_unwrap_or result count) heads.new members.new) }
    ensures refusal { IfErr result (λ e. e ≢ Ok) }
{
    let at = held_place(&heads[..], count, u64::from(g.id))?;
    heads[at] = rows::head_of(g);
    let lows = g.members;
    members[at] = lows;
    Ok(count)
}

/// Takes the group with an ID out.
pub fn group_del(
    heads: &mut GroupHeads,
    members: &mut GroupMembers,
    count: usize,
    id: u32,
) -> Result<usize, Status>
    ensures outcome { Deleted groups_in id_of max_groups (group_places count heads.old members.old) id (status_of result) (group_places (result_unwrap_or result count) heads.new members.new) }
    ensures refusal { IfErr result (λ e. e ≢ Ok) }
{
    let at = held_place(&heads[..], count, u64::from(id))?;
    let live = count.min(MAX_GROUPS);
    close(&mut heads[..], live, at);
    close(&mut members[..], live, at);
    Ok(live - 1)
}
