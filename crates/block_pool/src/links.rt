ghost use Rattle.std.specs.Prelude.{◌≡◌, ◌<◌, length};
ghost use Rattle.std.specs.Prelude.{◌+◌, ◌^◌, ◌≢◌, ◌++◌, ◌∷◌, [], ℕ, IfOk, List};
ghost use Rattle.block_pool.specs.Links.{IsLinked, IsPaired, exchanged_next, exchanged_previous, first_next, first_previous, link};
ghost use Rattle.block_pool.specs.Lists.{emptied, moved};

use apex_types::OutOfMemory;

/// The place behind one, where all nodes are in list 0.
pub fn place_behind(nodes: u32, k: u32) -> u32
    ensures { result ≡ first_next nodes k }
{
    if k < nodes {
        k + 1
    } else if k == nodes {
        0
    } else {
        k
    }
}

/// And the place before it.
pub fn place_before(nodes: u32, k: u32) -> u32
    ensures { result ≡ first_previous nodes k }
{
    if k == 0 {
        nodes
    } else if k <= nodes {
        k - 1
    } else {
        k
    }
}

/// Writes one more link.
pub fn push_link(links: &mut Vec<u32>, place: u32) -> Result<(), OutOfMemory>
    ensures { IfOk result (λ _. links.new.items ≡ links.old.items ++ place ∷ []) }
{
    links.push(place)?;
    Ok(())
}

/// Exchanges the links behind two places: two rings become one, or one ring becomes two.
fn exchange(next: &mut [u32], previous: &mut [u32], a: u32, b: u32)
    requires paired { IsPaired next.old previous.old }
    requires a_within { a < length next.old }
    requires b_within { b < length next.old }
    ensures next { next.new ≡ exchanged_next next.old a b }
    ensures previous { previous.new ≡ exchanged_previous next.old previous.old a b }
    ensures paired { IsPaired next.new previous.new }
{
    let behind_a = next[a as usize];
    let behind_b = next[b as usize];
    next[a as usize] = behind_b;
    next[b as usize] = behind_a;
    previous[behind_a as usize] = b;
    previous[behind_b as usize] = a;
}

/// Takes a node out of its ring, and makes it a ring of its own.
fn take_out(next: &mut [u32], previous: &mut [u32], node: u32)
    requires paired { IsPaired next.old previous.old }
    requires within { node < length next.old }
    ensures next { next.new ≡ exchanged_next next.old (link previous.old node) node }
    ensures previous { previous.new ≡ exchanged_previous next.old previous.old (link previous.old node) node }
    ensures paired { IsPaired next.new previous.new }
{
    let before = previous[node as usize];
    exchange(next, previous, before, node);
}

/// Puts a ring, from behind a node to that node, in front of a place of another ring.
fn put_before(next: &mut [u32], previous: &mut [u32], node: u32, place: u32)
    requires paired { IsPaired next.old previous.old }
    requires within { node < length next.old }
    requires place_within { place < length next.old }
    ensures next { next.new ≡ exchanged_next next.old (link previous.old place) node }
    ensures previous { previous.new ≡ exchanged_previous next.old previous.old (link previous.old place) node }
    ensures paired { IsPaired next.new previous.new }
{
    let before = previous[place as usize];
    exchange(next, previous, before, node);
}

/// Moves a node out of its list, and to the end of a list.
pub fn move_node(next: &mut [u32], previous: &mut [u32], nodes: u32, node: u32, list: u32)
    requires paired { IsPaired next.old previous.old }
    requires short { length next.old < 2 ^ 32 }
    requires node_within { node < nodes }
    requires anchor_within { nodes + list < length next.old }
    ensures { (count : ℕ) (lists : List (List ℕ)) → IsLinked nodes count next.old previous.old lists → list < count
        → IsLinked nodes count next.new previous.new (moved node list lists) }
{
    take_out(next, previous, node);
    put_before(next, previous, node, nodes + list);
}

/// Moves all nodes of a list to the end of another.
pub fn move_list(next: &mut [u32], previous: &mut [u32], nodes: u32, from: u32, to: u32)
    requires paired { IsPaired next.old previous.old }
    requires short { length next.old < 2 ^ 32 }
    requires from_within { nodes + from < length next.old }
    requires to_within { nodes + to < length next.old }
    requires other { from ≢ to }
    ensures { (count : ℕ) (lists : List (List ℕ)) → IsLinked nodes count next.old previous.old lists → from < count → to < count
        → IsLinked nodes count next.new previous.new (emptied from to lists) }
{
    put_before(next, previous, nodes + from, nodes + to);
    take_out(next, previous, nodes + from);
}
