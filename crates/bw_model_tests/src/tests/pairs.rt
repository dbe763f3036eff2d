// Pairs as keys and values of their own.
use crate::tests::assertions::{assert_equal, assert_that};
use bw_fixtures::{LONG, heap, was_refused};
use bw_key::Key;
use bw_memory::Alloc;
use bw_model::{Pairs, Value, to_vec};
use std::process::Abort;

// A short pair and a long one.
fn short_and_long<R: Abort>(rt: &R, alloc: Alloc) -> Pairs {
    let mut pairs = Pairs::new(alloc);
    pairs.push(b"a", b"1").expect(rt, "memory");
    pairs.push(LONG, LONG).expect(rt, "memory");
    pairs
}

fn is_pair(pair: &(Key, Value), key: &[u8], value: &[u8]) -> bool {
    pair.0.bytes() == key && pair.1.bytes() == value
}

#[test]
fn pairs_are_made_keys_and_values_of_their_own(rt: HostRuntime) {
    let alloc = heap(rt.alloc()).expect(&rt, "memory");
    let pairs = short_and_long(&rt, alloc);
    let list = to_vec(alloc, &pairs).expect(&rt, "memory");
    assert!(rt; list.len() == 2);
    assert!(rt; is_pair(&list[0], b"a", b"1"));
    assert!(rt; is_pair(&list[1], LONG, LONG));
}

#[test]
fn bytes_that_no_key_has_are_out_of_memory(rt: HostRuntime) {
    let alloc = heap(rt.alloc()).expect(&rt, "memory");
    let mut pairs = short_and_long(&rt, alloc);
    pairs.push(&[107; 65], b"1").expect(&rt, "memory");
    assert_that(&rt, to_vec(alloc, &pairs).is_err());
}

#[test]
fn each_growth_of_pairs_of_their_own_is_refused(rt: HostRuntime) {
    let alloc = heap(rt.alloc()).expect(&rt, "memory");
    let pairs = short_and_long(&rt, alloc);
    for growth in 1..=4 {
        alloc.refuse(growth);
        let lacks_memory = to_vec(alloc, &pairs).is_err();
        assert_equal(&rt, lacks_memory, growth < 4);
        assert_equal(&rt, was_refused(alloc, growth), growth < 4);
    }
}
