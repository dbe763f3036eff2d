// Values and their faults.
use super::making::Maker;
use crate::tests::assertions::{assert_equal, assert_that};
use bw_memory::{Alloc, Heap};
use bw_model::{Memory, Pairs, Refusal, Replies, Reply, Value, ValueFault};
use std::process::Abort;
use std::test::Fail;

// A value of these bytes.
fn value_of<R: Abort>(rt: &R, alloc: Alloc, bytes: &[u8]) -> Value {
    Value::new(alloc, bytes).expect(rt, "a value")
}

// What is wrong with a value of these bytes.
fn fault_of(alloc: Alloc, bytes: &[u8]) -> Option<ValueFault> {
    Value::new(alloc, bytes).err()
}

// Compares a value with its copy.
fn is_copied<R: Abort>(rt: &R, value: &Value) {
    let copy = value.copy().expect(rt, "a copy");
    assert!(rt; copy == *value);
    assert!(rt; copy.bytes() == value.bytes());
}

// Compares the bytes of a value with those that it was made of.
fn has_bytes<R: Abort>(rt: &R, alloc: Alloc, bytes: &[u8]) {
    let value = value_of(rt, alloc, bytes);
    assert_equal(rt, value.bytes(), bytes);
    is_copied(rt, &value);
}

#[test]
fn a_value_has_up_to_1024_bytes(rt: HostRuntime) {
    let make = Maker::new(&rt, rt.alloc());
    let bytes = [b'v'; 1025];
    for length in [0, 1, 24, 25, 1023, 1024] {
        has_bytes(&rt, make.alloc, &bytes[..length]);
    }
    assert_equal(
        &rt,
        fault_of(make.alloc, &bytes),
        Some(ValueFault::TooLong(1025)),
    );
}

#[test]
fn values_are_equal_where_their_bytes_are(rt: HostRuntime) {
    let make = Maker::new(&rt, rt.alloc());
    for (left, right) in [("", "0"), ("a", "a\0"), ("ab", "ba"), ("a", "b")] {
        assert_that(&rt, make.value(left) != make.value(right));
        assert_equal(&rt, make.value(left), make.value(left));
    }
}

#[test]
fn a_value_is_48_bytes(rt: HostRuntime) {
    assert_equal(&rt, size_of::<Value>(), 48);
}

#[test]
fn a_value_of_24_bytes_takes_no_others(rt: HostRuntime) {
    let make = Maker::new(&rt, rt.alloc());
    make.alloc.refuse(1);
    has_bytes(&rt, make.alloc, &[b'v'; 24]);
    assert_equal(&rt, make.alloc.left(), 1);
}

#[test]
fn a_longer_value_is_refused_for_want_of_memory(rt: HostRuntime) {
    let make = Maker::new(&rt, rt.alloc());
    make.alloc.refuse(1);
    assert_equal(
        &rt,
        fault_of(make.alloc, &[b'v'; 25]),
        Some(ValueFault::Memory),
    );
    assert_equal(&rt, make.alloc.left(), 0);
}

// Copies a value of 25 bytes to a heap that has room for one.
fn is_copied_in<R: Abort>(rt: &R, long: &Value, other: Alloc) {
    let copy = long.copy_in(other).expect(rt, "a copy");
    assert!(rt; copy == *long);
    assert!(rt; other.used() == 25);
    assert!(rt; long.copy_in(other).is_err());
    assert!(rt; copy.copy().is_err());
}

#[test]
fn a_copy_is_in_the_heap_that_it_was_made_with(rt: HostRuntime) {
    let make = Maker::new(&rt, rt.alloc());
    let other = Heap::within(rt.alloc(), 30).leak(rt.alloc());
    let long = value_of(&rt, make.alloc, &[b'v'; 25]);
    make.alloc.refuse(1);
    is_copied_in(&rt, &long, other.expect(&rt, "a heap"));
    assert_equal(&rt, make.alloc.left(), 1);
}

#[test]
fn a_copy_of_a_longer_value_is_refused_for_want_of_memory(rt: HostRuntime) {
    let make = Maker::new(&rt, rt.alloc());
    let long = value_of(&rt, make.alloc, &[b'v'; 25]);
    make.alloc.refuse(1);
    assert_that(&rt, long.copy().is_err());
    is_copied(&rt, &long);
}

#[test]
fn a_length_is_judged_before_memory(rt: HostRuntime) {
    let make = Maker::new(&rt, rt.alloc());
    make.alloc.refuse(1);
    assert_equal(
        &rt,
        fault_of(make.alloc, &[0; 2000]),
        Some(ValueFault::TooLong(2000)),
    );
    assert_equal(&rt, make.alloc.left(), 1);
}

// Makes a value of 100 bytes, and drops it.
fn drop_value<R: Abort>(rt: &R, alloc: Alloc) {
    let value = Value::new(alloc, &[b'v'; 100]).expect(rt, "a value");
    assert_equal(rt, alloc.used(), 100);
    drop(value);
}

// Makes lists, and drops them.
fn drop_lists<R: Abort>(rt: &R, alloc: Alloc) {
    let pairs = Pairs::with_capacity(alloc, 1, 1).expect(rt, "memory");
    assert_that(rt, alloc.used() > 0);
    drop(pairs);
    let mut replies = Vec::new(alloc);
    replies.push(Reply::New).expect(rt, "memory");
    drop(Replies::from_vec(replies));
}

#[test]
fn what_is_dropped_gives_its_memory_back(rt: HostRuntime) -> Result<(), Fail> {
    let alloc = Heap::within(rt.alloc(), 4096).leak(rt.alloc())?;
    drop_value(&rt, alloc);
    assert_equal(&rt, alloc.used(), 0);
    drop_lists(&rt, alloc);
    assert_equal(&rt, alloc.used(), 0);
    Ok(())
}

#[test]
fn faults_have_texts(rt: HostRuntime) {
    let alloc = rt.alloc();
    let too_long = ValueFault::TooLong(1025);
    let text = format!(in alloc; "{too_long}").expect(&rt, "a text");
    assert_equal(&rt, text.as_str(), "value longer than 1024 bytes");
    let memory = ValueFault::Memory;
    let text = format!(in alloc; "{memory}").expect(&rt, "a text");
    assert_equal(&rt, text.as_str(), "out of memory");

    let long_batch = Refusal::TooLong { ops: 4, most: 3 };
    let text = format!(in alloc; "{long_batch}").expect(&rt, "a text");
    assert_equal(
        &rt,
        text.as_str(),
        "a batch of 4 operations, of which there may be 3",
    );
    let memory = Refusal::from(Memory);
    assert_equal(&rt, memory, Refusal::Memory);
    let text = format!(in alloc; "{memory}").expect(&rt, "a text");
    assert_equal(&rt, text.as_str(), "out of memory");
}

// Whether no value is made of these bytes, of which there are too many or no memory for.
fn lacks_memory(alloc: Alloc, bytes: &[u8]) -> bool {
    Value::from_bytes(alloc, bytes).is_err()
}

#[test]
fn bytes_of_a_page_become_a_value_again(rt: HostRuntime) -> Result<(), Fail> {
    let alloc = Heap::counted(rt.alloc()).leak(rt.alloc())?;
    let bytes = [118u8; 1025];
    assert_that(&rt, lacks_memory(alloc, &bytes));
    alloc.refuse(1);
    assert_that(&rt, !lacks_memory(alloc, &bytes[..24]));
    assert_equal(&rt, alloc.left(), 1);
    assert_that(&rt, lacks_memory(alloc, &bytes[..25]));
    assert_that(&rt, !lacks_memory(alloc, &bytes[..1024]));
    Ok(())
}
