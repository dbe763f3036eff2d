// Keys by their first bytes as one number, which tells most of them apart.
ghost use Rattle.std.specs.Prelude.{◌≡◌, ◌<◌, slice_index_or};
ghost use Rattle.bw_key.specs.Order.{key_cmp};
ghost use Rattle.bw_key.specs.Prefixes.{IsBytes, key_prefix};

use std::cmp::Ordering;

// So many bytes of a key are in its prefix.
const PREFIX_LEN: usize = 8;

/// How the bytes of two keys stand, whose prefixes these are: as these keys do. Keys that differ in their first eight bytes
/// are told apart by one comparison of numbers, and not read.
#[inline(always)]
pub fn compare_prefixed(left: &[u8], left_prefix: u64, right: &[u8], right_prefix: u64) -> Ordering
    requires left { left_prefix ≡ key_prefix left.now }
    requires right { right_prefix ≡ key_prefix right.now }
    ensures { result ≡ key_cmp left.now right.now }
{
    know_bytes(left);
    know_bytes(right);
    match left_prefix.cmp(&right_prefix) {
        Ordering::Equal => compare_alike(left, right),
        order => order,
    }
}

/// How the bytes of two keys stand: as these keys do. Those that have eight bytes or more, and differ in the first eight, are
/// told apart by one comparison of numbers.
#[inline(always)]
pub fn compare_bytes(left: &[u8], right: &[u8]) -> Ordering
    ensures { result ≡ key_cmp left.now right.now }
{
    if left.len() < PREFIX_LEN || right.len() < PREFIX_LEN {
        return left.cmp(&right);
    }
    know_bytes(left);
    know_bytes(right);
    match prefix_of(left).cmp(&prefix_of(right)) {
        Ordering::Equal => compare_alike(left, right),
        other => other,
    }
}

// How the bytes of two keys of one prefix stand: one that ends within it begins the other.
#[inline(never)]
fn compare_alike(left: &[u8], right: &[u8]) -> Ordering
    requires { key_prefix left.now ≡ key_prefix right.now }
    ensures { result ≡ key_cmp left.now right.now }
{
    know_bytes(left);
    know_bytes(right);
    if left.len() <= PREFIX_LEN || right.len() <= PREFIX_LEN {
        left.len().cmp(&right.len())
    } else {
        left.cmp(&right)
    }
}

/// The first eight bytes of a key as one number, the first of them at the top, with zeros behind a shorter key. Keys of
/// different prefixes stand as these do, so whoever sorts keeps them beside the keys (`compare_prefixed`).
pub fn prefix_of(bytes: &[u8]) -> u64
    ensures { result ≡ key_prefix bytes.now }
{
    if bytes.len() < PREFIX_LEN {
        return short_prefix(bytes);
    }
    u64::from_be_bytes([
        bytes[0], bytes[1], bytes[2], bytes[3], bytes[4], bytes[5], bytes[6], bytes[7],
    ])
}

// The same, byte by byte.
fn short_prefix(bytes: &[u8]) -> u64
    ensures { result ≡ key_prefix bytes.now }
{
    let mut number = 0;
    for place in 0..PREFIX_LEN {
        number = number * 256 + byte_at(bytes, place);
    }
    number
}

// The byte at a place, and behind the last one zero.
fn byte_at(bytes: &[u8], place: usize) -> u64
    ensures byte { result ≡ slice_index_or bytes.now place 0 }
    ensures bound { result < 256 }
{
    match bytes.get(place) {
        Some(byte) => u64::from(*byte),
        None => 0,
    }
}

// That bytes are bytes. It does nothing.
fn know_bytes(bytes: &[u8])
    ensures { IsBytes bytes.now }
{
    let _len = bytes.len();
}
