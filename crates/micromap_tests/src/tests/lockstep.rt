//! Two maps under one list of calls, and the worked rows: they have their values, and a failed write ends their run.
use micromap::Map;
use micromap_testing::{Call, Marked, Refusing, lockstep, run_rows};

#[test]
fn the_first_refused_write_ends_the_run(rt: HostRuntime) {
    let mut willing = Refusing::new(usize::MAX);
    assert!(rt; run_rows(rt.alloc(), &mut willing) == 0);
    for refused in 0..willing.writes {
        let mut out = Refusing::new(refused);
        assert!(rt; run_rows(rt.alloc(), &mut out) == 1, "at {refused}");
        assert!(rt; out.writes == refused.saturating_add(1), "at {refused}");
    }
}

#[test]
fn lockstep_goes_on_after_a_difference(rt: HostRuntime) {
    let mut first: Map<u8, u8, 1> = Map::from([(1, 10)]);
    let mut second: Map<u8, u8, 2> = Map::new();
    second.insert(1, 10);
    let calls = [
        Call::Insert(2, 20),
        Call::Len,
        Call::Remove(1),
        Call::Insert(3, 30),
    ];
    assert!(rt; !lockstep(&mut first, &mut second, &calls));
    assert!(rt; first.differs_at(&second) == Some(&2));
    assert!(rt; first.drain().eq([(3, 30)]));
    assert!(rt; second.drain().eq([(2, 20), (3, 30)]));
}

#[test]
fn two_refusals_agree(rt: HostRuntime) {
    let mut first: Map<u8, u8, 1> = Map::from([(1, 10)]);
    let mut second: Map<u8, u8, 1> = Map::from([(1, 10)]);
    let calls = [Call::Insert(2, 20), Call::Get(1)];
    assert!(rt; lockstep(&mut first, &mut second, &calls));
    assert!(rt; lockstep(&mut first, &mut second, &[]));
    assert!(rt; (first.get(&1), first.len()) == (Some(&10), 1));
    assert!(rt; (second.get(&1), second.len()) == (Some(&10), 1));
    let others = [
        Call::InsertKeyValue(1, 11),
        Call::GetKeyValue(1),
        Call::Contains(2),
        Call::RemoveEntry(1),
        Call::IsEmpty,
    ];
    assert!(rt; lockstep(&mut first, &mut second, &others));
    assert!(rt; first.is_empty());
    assert!(rt; second.is_empty());
}

#[test]
fn equal_keys_agree_whichever_is_stored(rt: HostRuntime) {
    let mut first = Map::from([(Marked::new(1, 'x'), 10), (Marked::new(2, 'x'), 20)]);
    let mut second: Map<Marked, u8, 3> = Map::new();
    second.checked_insert(Marked::new(2, 'y'), 20);
    second.checked_insert(Marked::new(1, 'y'), 10);
    assert!(rt; first.eq_with(&second));
    assert!(rt; first.differs_at(&second).is_none());
    let calls = [
        Call::GetKeyValue(Marked::new(1, 'z')),
        Call::Insert(Marked::new(2, 'w'), 25),
        Call::RemoveEntry(Marked::new(1, 'q')),
        Call::Len,
    ];
    assert!(rt; lockstep(&mut first, &mut second, &calls));
    assert!(rt; first.eq_with(&second));
    assert!(rt;
        first
            .iter()
            .map(|(key, value)| (key.id, key.mark, *value))
            .eq([(2, 'x', 25)])
    );
    assert!(rt;
        second
            .iter()
            .map(|(key, value)| (key.id, key.mark, *value))
            .eq([(2, 'y', 25)])
    );
    assert!(rt; lockstep(&mut first, &mut second, &[Call::Clear]));
    assert!(rt; first.is_empty());
}

#[test]
fn room_alone_tells_empty_maps_apart(rt: HostRuntime) {
    let mut none: Map<u8, u8, 0> = Map::new();
    let mut some: Map<u8, u8, 3> = Map::new();
    let calls = [
        Call::Get(1),
        Call::GetKeyValue(1),
        Call::Remove(1),
        Call::RemoveEntry(1),
        Call::Contains(1),
        Call::Len,
        Call::IsEmpty,
        Call::Clear,
    ];
    assert!(rt; lockstep(&mut none, &mut some, &calls));
    assert!(rt; !lockstep(&mut none, &mut some, &[Call::Insert(1, 1)]));
    assert!(rt; none.differs_at(&some) == Some(&1));
}

#[test]
fn maps_of_one_capacity_answer_alike(rt: HostRuntime) {
    let mut second: Map<u8, u8, 2> = Map::new();
    second.checked_insert(1, 10);
    match Map::from([(1, 10)]).into_capacity::<2>() {
        Ok(mut first) => {
            assert!(rt; lockstep(&mut first, &mut second, &[Call::Insert(2, 20)]));
            assert!(rt; first.drain().eq([(1, 10), (2, 20)]));
            assert!(rt; second.drain().eq([(1, 10), (2, 20)]));
        }
        Err(_) => panic!(rt; "one pair fits"),
    }
}
