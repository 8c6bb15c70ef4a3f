// The distances of all nodes from the tree, once nothing is refused: labels spread until no node waits.
ghost use Rattle.std.specs.Prelude.{◌≡◌, ◌*◌, ◌≤◌, length};
ghost use Rattle.search.specs.Block.{block_in};
ghost use Rattle.search.specs.Turn.{congestion_in};
ghost use Rattle.search.specs.Tables.{Sound};
ghost use Rattle.search.specs.Distance.{distances as distances_of};
ghost use Rattle.search.specs.Turn.{price_at};
ghost use Rattle.search.specs.Replies.{cleared};
ghost use Rattle.search.specs.Priceable.{PricesReady};

use crate::{Prices, Tables, fill, labels, turn};

// Leaves the distances of all nodes at the beginning of the work slice.
pub fn distances_from_tree(tables: &Tables, prices: &Prices, work: &mut [u64], in_tree: &[u8])
    requires { let t = tables.now in
        let congestion = congestion_in prices.now in
        PricesReady t.kind.now t.capacity.now congestion in_tree.now × Sound (block_in t) × (8 * length t.kind.now ≤ length work.old) }
    ensures { let block = block_in tables.now in
        let congestion = congestion_in prices.now in
        let found = distances_of block (price_at block congestion) in_tree.now in
        work.new ≡ cleared (length tables.now.kind.now) found work.old }
{
    let n = tables.kind.len();
    let waits = turn::mark_tree(in_tree, work, n);
    labels::settle_all(tables, prices, false, work, waits, 0);
    fill::fill(work, n, 8 * n, 0);
}
