// Flows in the order in which they were added, over lent rows. A command looks at one after the other.
ghost use Rattle.std.specs.Prelude.{◌≡◌, length};
ghost use Rattle.rules.specs.Limits.{max_flows};
ghost use Rattle.rules.specs.Places.{places};
ghost use Rattle.plain.specs.Store.{Stands, Added, Modded, Deleted};

use rules::{FlowEntry, FlowRows, MAX_FLOWS, Status};

// Where a cookie stands or belongs, how many flows are live, and whether it stands there.
#[derive(Clone, Copy)]
pub struct Place {
    pub at: usize,
    pub live: usize,
    pub held: bool,
}

// A command's status, and the number of live flows after it.
#[derive(Clone, Copy)]
pub struct Counted {
    pub status: Status,
    pub count: usize,
}

// The first of the live flows that has this cookie, or behind the last. `all` tells how many places there are.
pub fn find(rows: &FlowRows, count: usize, cookie: u64) -> Place
    ensures { (length rows.now ≡ max_flows) × Stands cookie result.live count rows.now result.at result.held }
{
    let all = &rows[..];
    let n = count.min(all.len());
    let mut at: usize = 0;
    let mut held = false;
    while at < n {
        let k = rows::join(rows[at][0], rows[at][1]);
        if k == cookie {
            held = true;
            break;
        }
        at += 1;
    }
    Place {
        at: at,
        live: n,
        held: held,
    }
}

// A flow put in behind the last.
pub fn add(rows: &mut FlowRows, count: usize, e: FlowEntry) -> Counted
    ensures { Added (places count rows.old) e result.status (places result.count rows.new) }
{
    let p = find(rows, count, e.cookie);
    let n = p.live;
    let held = p.held;
    if held {
        return Counted {
            status: Status::Eexist,
            count: count,
        };
    }
    if MAX_FLOWS <= n {
        return Counted {
            status: Status::Enomem,
            count: count,
        };
    }
    let row = rows::row_of(e);
    rows[n] = row;
    let after = n + 1;
    Counted {
        status: Status::Ok,
        count: after,
    }
}

// The flow with this cookie replaced where it stands.
pub fn change(rows: &mut FlowRows, count: usize, e: FlowEntry) -> Counted
    ensures { Modded (places count rows.old) e result.status (places result.count rows.new) }
{
    let p = find(rows, count, e.cookie);
    let at = p.at;
    if p.held {
        rows[at] = rows::row_of(e);
        return Counted {
            status: Status::Ok,
            count: count,
        };
    }
    Counted {
        status: Status::Enoent,
        count: count,
    }
}

// The flow with a cookie taken out, those behind it moved down.
pub fn del(rows: &mut FlowRows, count: usize, cookie: u64) -> Counted
    ensures { Deleted (places count rows.old) cookie result.status (places result.count rows.new) }
{
    let p = find(rows, count, cookie);
    let n = p.live;
    if p.held {
        tables::close(&mut rows[..], n, p.at);
        return Counted {
            status: Status::Ok,
            count: n - 1,
        };
    }
    Counted {
        status: Status::Enoent,
        count: count,
    }
}
