//! Searches in a graph: each node has the set of those to which its edges lead.

use micromap::{Map, Set};
use std::alloc::{AllocError, Global};

/// The targets of each node that has an edge.
pub type Graph = Map<u8, Set<u8, 4>, 8>;

/// Adds an edge, and returns whether there is room for it; otherwise nothing changes.
pub fn add_edge(graph: &mut Graph, from: u8, to: u8) -> bool {
    match graph.get_mut(&from) {
        Some(targets) => targets.put(to),
        None => {
            let mut targets = Set::new();
            targets.put(to) && graph.put(from, targets)
        }
    }
}

/// Searches breadth first: makes a map of the distance of each node that is reached from one, the nearest first.
/// It returns `None` if more than 8 nodes are reached.
pub fn distances(graph: &Graph, start: u8) -> Option<Map<u8, u8, 8>> {
    let mut found: Map<u8, u8, 8> = Map::new();
    found.put(start, 0);
    for index in 0..8_usize {
        let Some((node, distance)) = found.iter().nth(index).map(|(node, far)| (*node, *far)) else {
            break;
        };
        if let Some(targets) = graph.get(&node) {
            for target in targets {
                if !found.contains_key(target) && !found.put(*target, distance.saturating_add(1)) {
                    return None;
                }
            }
        }
    }
    Some(found)
}

// For each node that is met from a start, breadth first, the node before it on a shortest path.
fn nodes_before(graph: &Graph, start: u8) -> Option<Map<u8, u8, 8>> {
    let mut before: Map<u8, u8, 8> = Map::new();
    before.put(start, start);
    for index in 0..8_usize {
        let Some(node) = before.keys().nth(index).copied() else {
            break;
        };
        if let Some(targets) = graph.get(&node) {
            for target in targets {
                if !before.contains_key(target) && !before.put(*target, node) {
                    return None;
                }
            }
        }
    }
    Some(before)
}

/// Finds a shortest path: lists the nodes from one to another, both included, or returns `None` if there is no path.
/// It returns `None` too if more than 8 nodes are reached.
pub fn shortest_path(
    alloc: Global,
    graph: &Graph,
    start: u8,
    goal: u8,
) -> Result<Option<Vec<u8>>, AllocError> {
    let Some(before) = nodes_before(graph, start) else {
        return Ok(None);
    };
    let mut path = Vec::new(alloc);
    let mut node = goal;
    for _ in 0..8_usize {
        path.push(node)?;
        if node == start {
            path.reverse();
            return Ok(Some(path));
        }
        match before.get(&node) {
            Some(previous) => node = *previous,
            None => return Ok(None),
        }
    }
    Ok(None)
}

/// Searches depth first: makes a set of the nodes that are reached from one, in the order in which they are met.
/// It returns `None` if more than 8 nodes are reached.
pub fn depth_first(
    alloc: Global,
    graph: &Graph,
    start: u8,
) -> Result<Option<Set<u8, 8>>, AllocError> {
    let mut met: Set<u8, 8> = Set::new();
    let mut stack = Vec::new(alloc);
    stack.push(start)?;
    // A start, and at most 4 targets of each of 8 nodes, are pushed.
    for _ in 0..33_usize {
        let Some(node) = stack.pop() else {
            break;
        };
        if met.contains(&node) {
            continue;
        }
        if !met.put(node) {
            return Ok(None);
        }
        if let Some(targets) = graph.get(&node) {
            for target in targets {
                stack.push(*target)?;
            }
        }
    }
    Ok(Some(met))
}
