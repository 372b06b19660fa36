// The node's own replica, and that of each of its shards.
ghost use Rattle.std.specs.Prelude.{◌≡◌, option_map, slice_index_or};
ghost use Rattle.node_links.specs.Exchanges.{own_at};

use presence_base::Replica;

/// What the node is as its hello names it, and what each of its shards is, by its number, where some shard is still an
/// earlier replica of the node.
#[derive(Drop)]
pub(crate) struct Owns {
    pub(crate) node: Replica,
    pub(crate) shards: Option<Vec<Replica>>,
}

impl Owns {
    /// The node's own replica at a shard.
    pub(crate) fn at(&self, shard: u32) -> Replica
        ensures { result ≡ own_at self.now.node (option_map (λ v. v.items) self.now.shards) shard }
    {
        match &self.shards {
            Some(owns) => own_among(owns.as_slice(), shard as usize, &self.node),
            None => self.node,
        }
    }
}

// The replica in this place, or this one where there is none.
fn own_among(owns: &[Replica], place: usize, node: &Replica) -> Replica
    ensures { result ≡ slice_index_or owns.now place node.now }
{
    match owns.get(place) {
        Some(own) => *own,
        None => *node,
    }
}
