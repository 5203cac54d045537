//! The maps and sets of a case, at the capacities that the language names.
ghost use Rattle.std.specs.Prelude.{◌≤◌};

use crate::answer::{Answer, Reply};
use crate::calls::{MapCall, MapsCall, SetsCall, Side};
use crate::perform::{
    Keys, LARGEST, Numbers, items, pairs, perform_keyed, perform_map, perform_set, perform_sets,
};
use crate::words::Fault;
use micromap::{Map, Set};
use std::alloc::Global;

/// A case, named by its header.
#[derive(Drop)]
pub enum Case {
    Map0(Numbers<0>),
    Map1(Numbers<1>),
    Map2(Numbers<2>),
    Map3(Numbers<3>),
    Map5(Numbers<5>),
    Map8(Numbers<8>),
    Maps03(Numbers<0>, Numbers<3>),
    Maps35(Numbers<3>, Numbers<5>),
    Maps53(Numbers<5>, Numbers<3>),
    Maps55(Numbers<5>, Numbers<5>),
    Sets03(Keys<0>, Keys<3>),
    Sets35(Keys<3>, Keys<5>),
    Sets53(Keys<5>, Keys<3>),
    Sets55(Keys<5>, Keys<5>),
}

impl Case {
    /// The empty case that the line begins, or `None` where it is no header.
    pub fn begin(line: &str) -> Option<Case> {
        Some(match line {
            "map 0" => Case::Map0(Map::new()),
            "map 1" => Case::Map1(Map::new()),
            "map 2" => Case::Map2(Map::new()),
            "map 3" => Case::Map3(Map::new()),
            "map 5" => Case::Map5(Map::new()),
            "map 8" => Case::Map8(Map::new()),
            "maps 0 3" => Case::Maps03(Map::new(), Map::new()),
            "maps 3 5" => Case::Maps35(Map::new(), Map::new()),
            "maps 5 3" => Case::Maps53(Map::new(), Map::new()),
            "maps 5 5" => Case::Maps55(Map::new(), Map::new()),
            "sets 0 3" => Case::Sets03(Set::new(), Set::new()),
            "sets 3 5" => Case::Sets35(Set::new(), Set::new()),
            "sets 5 3" => Case::Sets53(Set::new(), Set::new()),
            "sets 5 5" => Case::Sets55(Set::new(), Set::new()),
            _ => return None,
        })
    }

    /// The reply to a call, which is performed, or to the header where there is none.
    pub fn reply(&mut self, alloc: Global, call: Option<&str>) -> Result<Reply, Fault> {
        match self {
            Case::Map0(map) => reply_of_map(alloc, map, call),
            Case::Map1(map) => reply_of_map(alloc, map, call),
            Case::Map2(map) => reply_of_map(alloc, map, call),
            Case::Map3(map) => reply_of_map(alloc, map, call),
            Case::Map5(map) => reply_of_map(alloc, map, call),
            Case::Map8(map) => reply_of_map(alloc, map, call),
            Case::Maps03(a, b) => reply_of_maps(alloc, a, b, call),
            Case::Maps35(a, b) => reply_of_maps(alloc, a, b, call),
            Case::Maps53(a, b) => reply_of_maps(alloc, a, b, call),
            Case::Maps55(a, b) => reply_of_maps(alloc, a, b, call),
            Case::Sets03(a, b) => reply_of_sets(alloc, a, b, call),
            Case::Sets35(a, b) => reply_of_sets(alloc, a, b, call),
            Case::Sets53(a, b) => reply_of_sets(alloc, a, b, call),
            Case::Sets55(a, b) => reply_of_sets(alloc, a, b, call),
        }
    }
}

fn reply_of_map<const N: usize>(
    alloc: Global,
    map: &mut Numbers<N>,
    call: Option<&str>,
) -> Result<Reply, Fault>
    requires { N ≤ LARGEST }
{
    let answer = match call {
        Some(call) => perform_map(alloc, map, MapCall::read(alloc, call)?)?,
        None => Answer::Done,
    };
    Ok(Reply::Map(answer, pairs(alloc, map)?))
}

fn reply_of_maps<const N: usize, const M: usize>(
    alloc: Global,
    a: &mut Numbers<N>,
    b: &mut Numbers<M>,
    call: Option<&str>,
) -> Result<Reply, Fault> {
    let answer = match call {
        Some(call) => match MapsCall::read(call)? {
            MapsCall::One(Side::A, call) => perform_keyed(a, &call),
            MapsCall::One(Side::B, call) => perform_keyed(b, &call),
            MapsCall::Eq => Answer::Truth(a.eq_with(b)),
        },
        None => Answer::Done,
    };
    Ok(Reply::Maps(answer, pairs(alloc, a)?, pairs(alloc, b)?))
}

fn reply_of_sets<const N: usize, const M: usize>(
    alloc: Global,
    a: &mut Keys<N>,
    b: &mut Keys<M>,
    call: Option<&str>,
) -> Result<Reply, Fault> {
    let answer = match call {
        Some(call) => match SetsCall::read(alloc, call)? {
            SetsCall::One(Side::A, call) => perform_set(a, call)?,
            SetsCall::One(Side::B, call) => perform_set(b, call)?,
            SetsCall::Both(call) => perform_sets(alloc, a, b, &call)?,
        },
        None => Answer::Done,
    };
    Ok(Reply::Sets(answer, items(alloc, a)?, items(alloc, b)?))
}
