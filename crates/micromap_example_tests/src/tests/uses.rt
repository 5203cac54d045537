//! Tests of the small libraries of `micromap_examples`, in the order of their names. Those of `headers` and of `request`
//! have a module.

mod heads;

use micromap::{Map, Set};
use micromap_examples::attributes::{self, Attributes};
use micromap_examples::board::{Board, Square, move_piece, put_piece};
use micromap_examples::frame::{self, Expression, Frame};
use micromap_examples::graph::Graph;
use micromap_examples::lru_cache::Call::{Get, Put};
use micromap_examples::lru_cache::LruCache;
use micromap_examples::order::{Plan, build_order};
use micromap_examples::permissions::Permission::{Delete, Read, Share, Write};
use micromap_examples::permissions::{beyond, grant, limited, may_the_same, merged, revoke};
use micromap_examples::scopes::{self, Scope};
use micromap_examples::stock::Stock;
use micromap_examples::votes::{Name, tally, winner};
use std::alloc::{AllocError, Global};

// Whether there was room for an attribute, or `None` where memory was lacking.
fn put(alloc: Global, list: &mut Attributes<3>, name: &str, value: &str) -> Option<bool> {
    attributes::set(alloc, list, name, value).ok()
}

// Whether an attribute had this name, and has another now.
fn renamed(alloc: Global, list: &mut Attributes<3>, from: &str, to: &str) -> Option<bool> {
    match String::from_str(alloc, to) {
        Ok(to) => Some(attributes::rename(list, from, to)),
        Err(_) => None,
    }
}

// Whether the list of attributes has this text.
fn reads(alloc: Global, list: &Attributes<3>, expected: &str) -> bool {
    attributes::text(alloc, list).is_ok_and(|text| text.as_str() == expected)
}

// A list of three attributes, which has room for no other.
fn full(alloc: Global) -> Attributes<3> {
    let mut list = Map::new();
    for (name, value) in [("id", "a"), ("class", "wide"), ("href", "/"), ("id", "b")] {
        put(alloc, &mut list, name, value);
    }
    list
}

// The other attributes keep their order, and the new name stands behind them.
#[test]
fn a_renamed_attribute_goes_last(rt: HostRuntime) {
    let alloc = rt.alloc();
    let mut list = full(alloc);
    assert!(rt; renamed(alloc, &mut list, "id", "name") == Some(true));
    assert!(rt; renamed(alloc, &mut list, "id", "alt") == Some(false));
    assert!(rt; reads(alloc, &list, "{class: wide, href: /, name: b}"));
    assert!(rt; attributes::value_or(&list, "name", "none") == "b");
    assert!(rt; attributes::value_or(&list, "id", "none") == "none");
    assert!(rt; attributes::remove(&mut list, "class"));
    assert!(rt; !attributes::remove(&mut list, "class"));
    assert!(rt; reads(alloc, &list, "{href: /, name: b}"));
}

// The expression of a number.
fn number(alloc: Global, n: i64) -> Result<Box<Expression>, AllocError> {
    Ok(Box::new(alloc, Expression::Number(n))?)
}

// The expression of a variable.
fn variable(alloc: Global, name: u32) -> Result<Box<Expression>, AllocError> {
    Ok(Box::new(alloc, Expression::Variable(name))?)
}

// 2 + 1
fn sum(alloc: Global) -> Result<Expression, AllocError> {
    Ok(Expression::Sum(variable(alloc, 2)?, variable(alloc, 1)?))
}

// let 1 = 2 + 1 in 1 * 2
fn whole(alloc: Global) -> Result<Expression, AllocError> {
    let product = Expression::Product(variable(alloc, 1)?, number(alloc, 2)?);
    let body = Box::new(alloc, product)?;
    Ok(Expression::Let(1, Box::new(alloc, sum(alloc)?)?, body))
}

// let 3 = 1 in 2
fn unbound(alloc: Global) -> Result<Expression, AllocError> {
    Ok(Expression::Let(3, number(alloc, 1)?, number(alloc, 2)?))
}

#[test]
fn an_expression_over_a_frame(rt: HostRuntime) -> Result<(), AllocError> {
    let frame: Frame<2> = Map::from([(1, 5), (2, -7)]);
    assert!(rt; sum(rt.alloc())?.value(&frame) == Some(-2));
    assert!(rt; whole(rt.alloc())?.value(&frame) == Some(-4));
    assert!(rt; frame.get(&1) == Some(&5));
    assert!(rt; unbound(rt.alloc())?.value(&frame).is_none());
    assert!(rt; Expression::Variable(9).value(&frame).is_none());
    Ok(())
}

#[test]
fn an_edge_goes_both_ways_or_is_refused(rt: HostRuntime) {
    let mut graph = Graph::new();
    assert!(rt; graph.add_edge(0, 1));
    assert!(rt; graph.add_edge(2, 0));
    assert!(rt; graph.add_edge(0, 7));
    assert!(rt; graph.has_edge(1, 0));
    assert!(rt; graph.has_edge(0, 2));
    assert!(rt; graph.degree(0) == 3);
    assert!(rt; graph.neighbours(0).eq(&[1, 2, 7]));
    assert!(rt; !graph.add_edge(3, 0));
    assert!(rt; !graph.has_edge(3, 0));
    assert!(rt; graph.degree(3) == 0);
    // An edge that is there, and one to the node itself.
    assert!(rt; graph.add_edge(1, 0));
    assert!(rt; graph.add_edge(3, 3));
    assert!(rt; graph.degree(3) == 1);
    assert!(rt; graph.remove_edge(1, 0));
    assert!(rt; !graph.has_edge(0, 1));
    assert!(rt; !graph.remove_edge(0, 1));
    assert!(rt; graph.neighbours(0).eq(&[2, 7]));
    assert!(rt; graph.degree(1) == 0);
}

#[test]
fn a_search_meets_what_edges_lead_to(rt: HostRuntime) {
    let mut graph = Graph::new();
    for (a, b) in [(0, 2), (0, 1), (2, 5), (5, 0), (3, 4)] {
        assert!(rt; graph.add_edge(a, b));
    }
    for (from, reached) in [(0, [0, 1, 2, 5]), (4, [3, 4, 4, 4]), (7, [7, 7, 7, 7])] {
        assert!(rt; graph.reached(from).eq_with(&Set::from(reached)));
    }
}

// Whether an LRU cache has these pairs, from the least recently used one on.
fn has(cache: &LruCache<char, u8, 2>, pairs: [(char, u8); 2]) -> bool {
    cache.iter().map(|pair| (*pair.0, *pair.1)).eq(pairs)
}

#[test]
fn a_read_key_outlasts_the_others(rt: HostRuntime) {
    let mut cache: LruCache<char, u8, 2> = LruCache::new();
    assert!(rt; cache.put('a', 1).is_none());
    assert!(rt; cache.put('b', 2).is_none());
    assert!(rt; cache.get(&'a') == Some(&1));
    assert!(rt; cache.put('c', 3) == Some(('b', 2)));
    assert!(rt; cache.get(&'b').is_none());
    assert!(rt; has(&cache, [('a', 1), ('c', 3)]));
}

#[test]
fn a_peek_leaves_the_order(rt: HostRuntime) {
    let mut cache: LruCache<char, u8, 2> = LruCache::new();
    cache.put('a', 1);
    cache.put('b', 2);
    assert!(rt; cache.peek(&'a') == Some(&1));
    assert!(rt; cache.put('c', 3) == Some(('a', 1)));
}

#[test]
fn a_stored_key_drops_no_other(rt: HostRuntime) {
    let mut cache: LruCache<char, u8, 2> = LruCache::new();
    cache.put('a', 1);
    cache.put('b', 2);
    assert!(rt; cache.put('a', 3) == Some(('a', 1)));
    assert!(rt; has(&cache, [('b', 2), ('a', 3)]));
    assert!(rt; cache.remove(&'b') == Some(2));
    assert!(rt; cache.put('c', 4).is_none());
    assert!(rt; cache.len() == cache.capacity());
}

#[test]
fn a_cache_without_room_returns_the_pair(rt: HostRuntime) {
    let mut cache: LruCache<char, u8, 0> = LruCache::new();
    assert!(rt; cache.put('a', 1) == Some(('a', 1)));
    assert!(rt; cache.is_empty());
}

#[test]
fn a_list_of_calls_leaves_the_last_keys(rt: HostRuntime) {
    let mut cache: LruCache<char, u8, 2> = LruCache::new();
    cache.run(&[
        Put('a', 1),
        Put('b', 2),
        Get('a'),
        Get('c'),
        Put('c', 3),
        Get('b'),
        Get('a'),
    ]);
    assert!(rt; has(&cache, [('c', 3), ('a', 1)]));
}

// Puts a target into a plan of at most eight, with one or two that it needs.
fn add(plan: &mut Plan<2, 8>, target: u8, needs: [u8; 2]) {
    plan.checked_insert(target, Set::from(needs));
}

#[test]
fn what_is_on_a_cycle_or_behind_it_is_left(rt: HostRuntime) {
    let mut plan: Plan<2, 8> = Map::new();
    add(&mut plan, 1, [2, 2]);
    add(&mut plan, 2, [3, 7]);
    add(&mut plan, 3, [2, 2]);
    add(&mut plan, 5, [7, 7]);
    plan.checked_insert(7, Set::new());
    let (order, left) = build_order(&plan);
    assert!(rt; order.iter().eq(&[7, 5]));
    assert!(rt; left.iter().eq(&[1, 2, 3]));
}

#[test]
fn roles_are_merged_and_limited(rt: HostRuntime) {
    let writer = Set::from([Read, Write]);
    let owner = Set::from([Delete, Write, Share]);
    let Some(mut both) = merged::<2, 3, 4>(&writer, &owner) else {
        panic!(rt; "there is room for four");
    };
    assert!(rt; both.iter().eq(&[Delete, Write, Share, Read]));
    assert!(rt; merged::<2, 3, 3>(&writer, &owner).is_none());
    assert!(rt; limited(&both, &writer).is_ok_and(|role| may_the_same(&role, &writer)));
    assert!(rt; limited(&writer, &owner).is_ok_and(|role| role.iter().eq(&[Write])));
    assert!(rt; beyond(&writer, &owner).is_ok_and(|role| role.iter().eq(&[Read])));
    assert!(rt; !may_the_same(&writer, &both));
    assert!(rt; revoke(&mut both, Write));
    assert!(rt; grant(&mut both, Write));
    assert!(rt; both.iter().eq(&[Delete, Share, Read, Write]));
}

#[test]
fn a_piece_moves(rt: HostRuntime) {
    let start = Square { row: 0, column: 4 };
    let end = Square { row: 4, column: 0 };
    let mut board: Board<1> = Map::new();
    assert!(rt; put_piece(&mut board, start, 'k') == Some('k'));
    assert!(rt; put_piece(&mut board, end, 'q').is_none());
    assert!(rt; move_piece(&mut board, start, end));
    assert!(rt; !move_piece(&mut board, start, end));
    assert!(rt; board.get(&end) == Some(&'k'));
    assert!(rt; board.len() == 1);
}

// Gives a variable a value in the innermost scope.
fn define(nested: &mut [Scope], name: u32, value: i64) -> bool {
    nested
        .last_mut()
        .is_some_and(|scope| frame::assign(scope, name, value))
}

#[test]
fn an_inner_variable_hides_an_outer_one(rt: HostRuntime) -> Result<(), AllocError> {
    let mut nested = Vec::new(rt.alloc());
    for value in [10, 20] {
        scopes::enter(&mut nested)?;
        assert!(rt; define(&mut nested, 1, value));
    }
    scopes::enter(&mut nested)?;
    assert!(rt; scopes::value_of(&nested, 1) == Some(20));
    assert!(rt; scopes::assign(&mut nested, 1, 21));
    assert!(rt; !scopes::assign(&mut nested, 2, 0));
    assert!(rt; scopes::value_of(&nested, 1) == Some(21));
    scopes::leave(&mut nested);
    scopes::leave(&mut nested);
    assert!(rt; scopes::value_of(&nested, 1) == Some(10));
    scopes::leave(&mut nested);
    assert!(rt; scopes::value_of(&nested, 1).is_none());
    assert!(rt; scopes::leave(&mut nested).is_none());
    Ok(())
}

// Delivers a few pieces of an article, unless there are many.
fn deliver(stock: &mut Stock<2>, article: u32, pieces: u8) -> u32 {
    if stock.pieces(article) > 1000 {
        return 0;
    }
    stock.deliver(article, u32::from(pieces))
}

#[test]
fn pieces_are_delivered(rt: HostRuntime) {
    let mut stock = Stock::new();
    for (article, pieces, sum) in [(1, 10, 10), (2, 20, 20), (3, 30, 0), (1, 5, 15)] {
        assert!(rt; deliver(&mut stock, article, pieces) == sum);
    }
    assert!(rt; stock.pieces(3) == 0);
    assert!(rt; stock.len() == 2);
}

// The winner of these votes, or `None` if there are more than two names.
fn elected(votes: &[Name]) -> Option<Option<(Name, usize)>> {
    Some(winner(&tally::<2>(votes)?))
}

#[test]
fn the_winner_has_the_most_votes(rt: HostRuntime) {
    assert!(rt; elected(&[]) == Some(None));
    assert!(rt; elected(&[7]) == Some(Some((7, 1))));
    assert!(rt; elected(&[8, 7, 8]) == Some(Some((8, 2))));
    assert!(rt; elected(&[7, 8, 7, 8, 7]) == Some(Some((7, 3))));
    assert!(rt; elected(&[7, 8, 9]).is_none());
}
