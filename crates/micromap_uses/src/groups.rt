//! Sets as the values of a map: groups, graphs, and work lists.
#![tactic(auto, using(micromap::proofs::Rules::caller))]

ghost use Rattle.std.specs.Prelude.{◌≡◌, ◌↔◌, ◌&&◌, ◌<◌, [], IfSome, IsNone, List, false, filter, fold, if◌then◌else◌, length, map, nat_eq, not, sum, true, unwrap_or, ℕ};
ghost use Rattle.std.specs.List.{find, list_all};
ghost use Rattle.std.specs.Map.{keys_of};
ghost use Rattle.std.specs.Set.{distinct_count, is_member};
ghost use Rattle.micromap.specs.Build.{merged};
ghost use Rattle.micromap.specs.Items.{item_fits, put_item, put_item_if_fits};
ghost use Rattle.micromap.specs.Merges.{with_item};
ghost use Rattle.micromap.specs.Pairs.{at, fits, put};
ghost use Rattle.micromap_uses.specs.Graphs.{is_closed};

use micromap::{Map, Set};

/// Groups a list: makes a map of the members of each key, or returns `None` exactly if there are more than
/// 16 keys.
/// A group has the members for which its set has room. The line `_known` tells the proof that at most 16 keys are there.
pub fn groups_of(list: &[(u8, u8)]) -> Option<Map<u8, Set<u8, 8>, 16>>
    ensures groups { IfSome result (λ groups. groups ≡ merged nat_eq (with_item nat_eq 8) [] list.now) }
    ensures refused { IsNone result ↔ (16 < distinct_count nat_eq (keys_of list.now)) }
{
    let mut groups: Map<u8, Set<u8, 8>, 16> = Map::new();
    for (group, member) in list {
        if !groups.fits(group) {
            return None;
        }
        groups.entry(*group).or_default().put(*member);
    }
    let _known = groups.len();
    Some(groups)
}

/// Adds an item to the set of a key, as in a multimap; the set is made if the key is new.
/// It returns whether both fit. Otherwise nothing changes. Of `&str` keys and items the clauses have `str_eq`.
pub fn join(groups: &mut Map<u8, Set<u8, 8>, 16>, group: u8, member: u8) -> bool
    ensures answer { result ≡ (item_fits nat_eq 8 (unwrap_or (at nat_eq groups.old group) []) member && fits nat_eq 16 groups.old group) }
    ensures groups { groups.new ≡ (if result then put nat_eq groups.old group (put_item nat_eq (unwrap_or (at nat_eq groups.old group) []) member) else groups.old) }
{
    let mut members = match groups.get(&group) {
        Some(members) => members.copied(),
        None => Set::new(),
    };
    members.put(member) && groups.put(group, members)
}

/// Counts the items of all sets of a map.
/// The chain goes over `iter()`: over `values()` the search finds no proof.
pub fn count_members(groups: &Map<u8, Set<u8, 8>, 16>) -> usize
    ensures { result ≡ sum (map (λ p. length p.1) groups.now) }
{
    groups.iter().map(|(_, members)| members.len()).sum()
}

// Returns whether the set of a key is empty, where a missing one is.
fn is_empty_group(groups: &Map<u8, Set<u8, 8>, 16>, group: u8) -> bool
    ensures { result ≡ nat_eq (length (unwrap_or (at nat_eq groups.now group) [])) 0 }
{
    match groups.get(&group) {
        Some(members) => members.is_empty(),
        None => true,
    }
}

/// Makes a set of the keys whose set is empty, as of the tasks that wait for none.
/// A function of the map and a key is the test, since a map of sets can't be copied.
pub fn empty_groups(groups: &Map<u8, Set<u8, 8>, 16>) -> Set<u8, 16>
    ensures { result ≡ filter (λ k. nat_eq (length (unwrap_or (at nat_eq groups.now k) [])) 0) (keys_of groups.now) }
{
    match Set::try_from_iter(
        groups
            .keys()
            .copied()
            .filter(|k| is_empty_group(groups, *k)),
    ) {
        Ok(keys) => keys,
        Err(_) => unreachable!(),
    }
}

/// Returns whether the set of a key has all items of another set, as of requirements that are met.
/// A missing set is the empty one.
pub fn meets(groups: &Map<u8, Set<u8, 8>, 16>, group: u8, needs: &Set<u8, 8>) -> bool
    ensures { result ≡ list_all (is_member nat_eq (unwrap_or (at nat_eq groups.now group) [])) needs.now }
{
    let none = Set::new();
    needs.is_subset(groups.get(&group).unwrap_or(&none))
}

/// Returns whether the sets of two keys conflict, which is that they share an item.
/// A missing set is the empty one.
pub fn have_conflict(groups: &Map<u8, Set<u8, 8>, 16>, group: u8, other: u8) -> bool
    ensures { result ≡ not (list_all (λ x. not (is_member nat_eq (unwrap_or (at nat_eq groups.now other) []) x)) (unwrap_or (at nat_eq groups.now group) [])) }
{
    let none = Set::new();
    let others = groups.get(&other).unwrap_or(&none);
    !groups.get(&group).unwrap_or(&none).is_disjoint(others)
}

/// Moves the items of a set into another, as far as they fit: a work list.
/// The items are taken one after the other until none is left. What doesn't fit is dropped.
pub fn pour(from: &mut Set<u8, 16>, into: &mut Set<u8, 8>)
    ensures emptied { from.new ≡ [] }
    ensures poured { into.new ≡ fold (put_item_if_fits nat_eq 8) into.old from.old }
{
    while let Some(item) = from.pop_first() {
        into.put(item);
    }
}

/// Finds the first item of a set that another lacks.
/// By `find(..).copied()` the search finds no proof.
pub fn first_unmet(targets: &Set<u8, 8>, met: &Set<u8, 64>) -> Option<u8>
    ensures { result ≡ find (λ x. not (is_member nat_eq met.now x)) targets.now }
{
    targets.iter().copied().find(|x| !met.contains(x))
}

// Finds a target that isn't in a set.
#[tactic(auto, using(micromap::proofs::Rules::caller, micromap::proofs::Laws::ChainLaws::none_fails))]
fn unmet(targets: &Set<u8, 8>, met: &Set<u8, 64>) -> Option<u8>
    ensures none { IsNone result → list_all (is_member nat_eq met.now) targets.now ≡ true }
    ensures new { IfSome result (λ x. is_member nat_eq met.now x ≡ false) }
    ensures within { IfSome result (λ x. (s : List ℕ) → list_all (is_member nat_eq s) targets.now ≡ true → is_member nat_eq s x ≡ true) }
{
    first_unmet(targets, met)
}

// Finds a node that isn't in a set, though an edge leads to it from one that is.
#[tactic(auto, using(micromap::proofs::Rules::caller, micromap::proofs::Laws::ChainLaws::member_passes))]
fn next_node(graph: &Map<u8, Set<u8, 8>, 64>, met: &Set<u8, 64>) -> Option<u8>
    ensures closed { IsNone result → is_closed graph.now met.now ≡ true }
    ensures new { IfSome result (λ x. is_member nat_eq met.now x ≡ false) }
    ensures within { IfSome result (λ x. (s : List ℕ) → is_closed graph.now s ≡ true → list_all (is_member nat_eq s) met.now ≡ true → is_member nat_eq s x ≡ true) }
{
    for (node, targets) in graph {
        if met.contains(node) {
            if let Some(target) = unmet(targets, met) {
                return Some(target);
            }
        }
    }
    None
}

/// Makes a set of the nodes of a graph that are reached from one, in any number of steps.
/// It is the least set that has this node, and with each node all those to which its edges lead. It returns `None` only
/// if each such set has more than 64 nodes. A path leads from the start to a node exactly if the set has it. The loop's
/// goal is answered part by part, since the search gives up on the whole.
pub fn reached_from(graph: &Map<u8, Set<u8, 8>, 64>, start: u8) -> Option<Set<u8, 64>>
    ensures start { IfSome result (λ met. is_member nat_eq met start ≡ true) }
    ensures closed { IfSome result (λ met. is_closed graph.now met ≡ true) }
    ensures least { IfSome result (λ met. (s : List ℕ) → is_member nat_eq s start ≡ true → is_closed graph.now s ≡ true → list_all (is_member nat_eq s) met ≡ true) }
    ensures refused { IsNone result → (s : List ℕ) → is_member nat_eq s start ≡ true → is_closed graph.now s ≡ true → 64 < length s }
{
    let mut met: Set<u8, 64> = Set::new();
    met.insert(start);
    while let Some(node) = next_node(graph, &met) {
        if !met.put(node) {
            return None;
        }
    }
    Some(met)
}
