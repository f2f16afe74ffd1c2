ghost use Rattle.std.specs.Prelude.{◌≡◌, ◌+◌, ◌*◌, ◌/◌, ◌<◌, ◌≤◌, false, drop, length, set};
ghost use Rattle.least_tree.specs.Nodes.{at, doubled, made, AreOthers, IsTree, IsLastLeaf};

// After a change of one leaf: the nodes from the one above it on are renewed, up to the first that stays.
pub fn raise(nodes: &mut [u128], above: usize)
    requires inside { 2 * above + 1 < length nodes.old }
    requires others { AreOthers above nodes.old }
    ensures leaves { drop (length nodes.old / 2) nodes.new ≡ drop (length nodes.old / 2) nodes.old }
    ensures tree { IsTree nodes.new }
{
    let mut node = above;
    while node > 0 {
        if !renew(nodes, node) {
            return;
        }
        node /= 2;
    }
}

// All inner nodes are made anew.
pub fn build(nodes: &mut [u128])
    ensures leaves { drop (length nodes.old / 2) nodes.new ≡ drop (length nodes.old / 2) nodes.old }
    ensures tree { IsTree nodes.new }
{
    for node in (1..nodes.len() / 2).rev() {
        renew(nodes, node);
    }
}

// The lesser of a node's two children stands at it. Tells whether another number stood there.
#[inline(always)]
fn renew(nodes: &mut [u128], node: usize) -> bool
    requires { 2 * node + 1 < length nodes.old }
    ensures nodes { nodes.new ≡ set nodes.old node (made nodes.old node) }
    ensures same { result ≡ false → nodes.new ≡ nodes.old }
{
    let lesser = nodes[2 * node].min(nodes[2 * node + 1]);
    if lesser == nodes[node] {
        return false;
    }
    nodes[node] = lesser;
    true
}

// The last leaf that has the number of the root: a node's right child is looked at first.
pub fn last_with(nodes: &[u128], levels: usize, least: u128) -> usize
    requires size { length nodes.now ≡ 2 * doubled levels 1 }
    requires tree { IsTree nodes.now }
    requires least { least ≡ at nodes.now 1 }
    ensures { IsLastLeaf (doubled levels 1) nodes.now result }
{
    let mut node = 1;
    let mut left = levels;
    while left > 0 {
        let right = 2 * node + 1;
        node = if nodes[right] == least {
            right
        } else {
            2 * node
        };
        left -= 1;
    }
    node
}
