// Rule 6: the operands of each node, and the size of its tree.
ghost use Rattle.std.specs.Prelude.{◌≡◌, true, ℕ, ◌<◌, length};
ghost use Rattle.blocks.specs.Records.{model_of};
ghost use Rattle.blocks.specs.Index.{Starts};
ghost use Rattle.blocks.specs.Totals.{TotalsOf};
ghost use Rattle.blocks.specs.Lent.{model_in};
ghost use Rattle.trees.specs.Trees.{operands_of, lower_ok, size_of, tree_ok, Measurable, trees_ok};

use blocks::index::Records;
use blocks::records::NodeRecord;

// How many operands a node of the kind has.
pub fn operands_of(kind: usize) -> usize
    ensures { result ≡ operands_of kind }
{
    match kind {
        0..=5 => 0,
        6 | 10 => 1,
        _ => 2,
    }
}

// Whether the operands of node n are lower.
fn lower_ok(d: NodeRecord, n: usize) -> bool
    ensures { result ≡ lower_ok d n }
{
    match operands_of(d.kind) {
        0 => true,
        1 => d.a < n,
        _ => (d.a < n) & (d.b < n),
    }
}

// The size of node n's tree, repeats counted. No tree below it has more than 64 nodes, so there are at most 129 calls.
fn tree_size(records: &Records, n: usize) -> usize
    requires { Measurable (model_in records.now) n }
    ensures { result ≡ size_of (model_in records.now) n }
{
    let d = records.node(n);
    match operands_of(d.kind) {
        0 => 1,
        1 => 1 + tree_size(records, d.a),
        _ => 1 + tree_size(records, d.a) + tree_size(records, d.b),
    }
}

// Whether the operands of node n are lower and its tree has at most 64 nodes, where the nodes below it have passed.
fn tree_ok(records: &Records, n: usize) -> bool
    requires n_in_bounds { n < length (model_in records.now).nodes }
    requires by_index { (k : ℕ) → k < n → tree_ok (model_in records.now) k ≡ true }
    ensures { result ≡ tree_ok (model_in records.now) n }
{
    lower_ok(records.node(n), n) && (tree_size(records, n) <= 64)
}

// Rule 6 over the whole model: no tree is measured once a node has failed.
// Stays: a `for`. With `all` it stayed open that the closure may call `tree_ok`, which asks that the nodes below n have passed.
pub fn trees_ok(records: &Records) -> bool
    ensures { result ≡ trees_ok (model_in records.now) }
{
    for n in 0..records.totals.nodes {
        if !tree_ok(records, n) {
            return false;
        }
    }
    true
}
