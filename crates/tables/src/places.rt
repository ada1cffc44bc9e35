// Places in rising order of their keys, the live ones in front: where a key stands or belongs, and a place opened or closed among them.
ghost use Rattle.std.specs.Prelude.{ℕ, ◌≡◌, ◌≤◌, ◌<◌, ◌+◌, ◌-◌, min, length, take, IfOk, IfErr, ◌≢◌};
ghost use Rattle.rules.specs.declared.Status.TheVariants.{Ok};
ghost use Rattle.rules.specs.Keyed.{insert_at, without};
ghost use Rattle.tables.specs.Commands.{place_of, free_place_of, held_place_of};

use rules::Status;

/// What stands in a place of a table, under a key of its own.
pub trait Keyed {
    ghost key: { Self → ℕ };

    /// The key: a flow's cookie, a group's ID.
    fn key(&self) -> u64
        ensures { result ≡ key self.now };
}

/// The live places: so many in front as are counted, or all.
pub fn live<P>(places: &[P], count: usize) -> &[P]
    ensures { result.now ≡ take count places.now }
{
    &places[..count.min(places.len())]
}

/// Where a key stands among live places; as the error, where it belongs: before the first with a higher one.
pub fn place<P: Keyed>(live: &[P], key: u64) -> Result<usize, usize>
    ensures { result ≡ place_of P.key key live.now }
{
    for (at, entry) in live.iter().enumerate() {
        let own = entry.key();
        if key <= own {
            return if own == key { Ok(at) } else { Err(at) };
        }
    }
    Err(live.len())
}

/// The place that an entry of a new key gets. Else `Eexist` where the key is held, and then `Enomem` where all places are live.
pub fn free_place<P: Keyed>(places: &[P], count: usize, key: u64) -> Result<usize, Status>
    ensures place { result ≡ free_place_of P.key (length places.now) key (take count places.now) }
    ensures within { IfOk result (λ at. (at ≤ min count (length places.now)) × (min count (length places.now) < length places.now)) }
    ensures refusal { IfErr result (λ e. e ≢ Ok) }
{
    let live = live(places, count);
    match place(live, key) {
        Ok(_) => Err(Status::Eexist),
        Err(_) if live.len() == places.len() => Err(Status::Enomem),
        Err(at) => Ok(at),
    }
}

/// The place of a key, or `Enoent`.
pub fn held_place<P: Keyed>(places: &[P], count: usize, key: u64) -> Result<usize, Status>
    ensures place { result ≡ held_place_of P.key key (take count places.now) }
    ensures within { IfOk result (λ at. at < min count (length places.now)) }
    ensures refusal { IfErr result (λ e. e ≢ Ok) }
{
    place(live(places, count), key).or(Err(Status::Enoent))
}

/// An entry put in among the live places, those from `at` on moved up by one.
pub fn open<P: Copy>(places: &mut [P], live: usize, at: usize, entry: P)
    requires { (at ≤ live) × (live < length places.old) }
    ensures { (take (live + 1) places.new ≡ insert_at at entry (take live places.old)) × (length places.new ≡ length places.old) }
{
    for place in (at..live).rev() {
        places[place + 1] = places[place];
    }
    places[at] = entry;
}

/// The one in a live place taken out, those behind it moved down by one.
pub fn close<P: Copy>(places: &mut [P], live: usize, at: usize)
    requires { (at < live) × (live ≤ length places.old) }
    ensures { (take (live - 1) places.new ≡ without at (take live places.old)) × (length places.new ≡ length places.old) }
{
    for place in at..live - 1 {
        places[place] = places[place + 1];
    }
}
