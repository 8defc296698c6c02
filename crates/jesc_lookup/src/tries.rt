//! Binary tries in a list of nodes: the bits of a key, from the highest on, lead from a root to its value.

ghost use Rattle.std.specs.Prelude.{◌≡◌, ◌<◌, ◌≤◌, ◌+◌, ◌^◌, true, length, take, IfOk};
ghost use Rattle.jesc_lookup.specs.Maps.{at};
ghost use Rattle.jesc_lookup.specs.Tries.{is_trie, map_of, place_for, IsPut};

use jesc_text::{List, OutOfMemory};

/// More nodes than that leave no room for those of one more value.
const MOST_NODES: usize = 4_294_967_200;

/// The least number of bits that tells so many numbers apart.
pub fn bits_of(size: u32) -> u32
    ensures low { result ≤ 32 }
    ensures enough { size ≤ 2 ^ result }
{
    let mut reached: u64 = 1;
    for bits in 0..32u32 {
        if reached >= size as u64 {
            return bits;
        }
        reached *= 2;
    }
    32
}

/// Two to that power.
fn power(bits: u32) -> u64
    requires { bits ≤ 32 }
    ensures { result ≡ 2 ^ bits }
{
    1u64 << bits
}

/// What the key has below the root.
pub fn find(nodes: &[(u32, u32)], bits: u32, root: u32, key: u32) -> Option<u32>
    requires low { bits ≤ 32 }
    requires trie { is_trie bits nodes.now root ≡ true }
    ensures { result ≡ at (map_of bits nodes.now root) key }
{
    let mut size = power(bits);
    let mut rest = key as u64;
    if rest >= size {
        return None;
    }
    let mut level = bits;
    let mut node = root;
    while level > 0 {
        level -= 1;
        size /= 2;
        let (left, right) = nodes[node as usize];
        if rest < size {
            node = left;
        } else {
            node = right;
            rest -= size;
        }
    }
    if node == 0 {
        return None;
    }
    Some(node - 1)
}

/// Adds the nodes of the trie below the root with one more value, and answers its root.
///
/// Answers `OutOfMemory` where there is no room for them.
pub fn put_in(
    nodes: &mut List<(u32, u32)>,
    bits: u32,
    root: u32,
    key: u32,
    value: u32,
) -> Result<u32, OutOfMemory>
    requires low { bits ≤ 32 }
    requires trie { is_trie bits nodes.old root ≡ true }
    requires key { key < 2 ^ bits }
    requires value { value + 1 < 2 ^ 32 }
    ensures kept { take (length nodes.old) nodes.new ≡ nodes.old }
    ensures put { IfOk result (IsPut bits nodes.old root key value nodes.new) }
{
    if nodes.len() > MOST_NODES {
        return Err(OutOfMemory);
    }
    let first = place(bits, nodes.len() as u32, value);
    let mut size = power(bits);
    let mut rest = key as u64;
    let mut level = bits;
    let mut node = root;
    while level > 0 {
        level -= 1;
        size /= 2;
        let (left, right) = nodes.as_slice()[node as usize];
        let next = place(level, nodes.len() as u32 + 1, value);
        if rest < size {
            nodes.push((next, right))?;
            node = left;
        } else {
            nodes.push((left, next))?;
            node = right;
            rest -= size;
        }
    }
    Ok(first)
}

/// Where the node for one more value goes.
fn place(level: u32, end: u32, value: u32) -> u32
    requires { value + 1 < 2 ^ 32 }
    ensures { result ≡ place_for level end value }
{
    if level == 0 {
        return value + 1;
    }
    end
}
