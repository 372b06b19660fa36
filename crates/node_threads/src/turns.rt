//! In which order the values of the shards go out.
ghost use Rattle.std.specs.Prelude.{◌≡◌, ◌++◌, ◌<◌, drop, take, length, position, nat_le, IfSome};
ghost use Rattle.node_threads.specs.Turns.{next_first, place_of};

// Where the first of these shards from this one on stands, if there is one.
fn first_from<T>(values: &[(u32, T)], first: u32) -> Option<usize>
    ensures place { result ≡ position (λ value. nat_le first value.0) values.now }
    ensures within { IfSome result (λ at. at < length values.now) }
{
    values.iter().position(|value| value.0 >= first)
}

/// The values of the first of these shards from this one on and of those behind it, and those of the shards before that: in
/// this order they go out. Where there is no such shard they go out as they stand.
pub fn from_shard<T>(values: &[(u32, T)], first: u32) -> (&[(u32, T)], &[(u32, T)])
    ensures front { result.0.now ≡ drop (place_of first values.now) values.now }
    ensures back { result.1.now ≡ take (place_of first values.now) values.now }
    ensures whole { result.1.now ++ result.0.now ≡ values.now }
{
    let at = first_from(values, first).unwrap_or(0);
    let (later, sooner) = values.split_at(at);
    (sooner, later)
}

/// The shard that comes first where one broke off at this shard: so one that always does keeps no other one back.
pub fn first_behind(shard: u32) -> u32
    ensures { result ≡ next_first shard }
{
    shard.saturating_add(1)
}
