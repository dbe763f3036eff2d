// Operations on one key each.
ghost use Rattle.std.specs.Prelude.{◌≡◌, ◌<◌, ◌≤◌, ◌^◌, Some, length, not, Decides, IfSome};
ghost use Rattle.std.specs.Option.{option_copied};
ghost use Rattle.std.specs.Ordering.{nat_cmp, ordering_then};
ghost use Rattle.bw_key.specs.Order.{key_cmp, key_eq};
ghost use Rattle.bw_key.specs.Prefixes.{key_prefix, IsBytes};
ghost use Rattle.bw_model.specs.Contents.{is_below_end};
ghost use Rattle.bw_model.specs.declared.verbs.Verb.TheVariants.{Get};

use bw_key::{Key, compare_prefixed};
use bw_model::Verb;
use std::cmp::Ordering;

// So many bytes of a key are in its prefix.
const PREFIX_LEN: u8 = 8;

/// An operation on one key: the key, and the operation's place in the batch. Sorted points lie in another order than
/// their operations, so what is asked of each one stands here, in 24 bytes, and most keys and operations aren't read
/// for it.
#[derive(Clone, Copy)]
pub struct Point<'a> {
    pub key: &'a Key,
    // The first bytes of the key, and how many it has.
    pub(crate) prefix: u64,
    pub(crate) place: u32,
    pub(crate) len: u8,
    pub(crate) verb: Option<Verb>,
    ghost alike: { prefix ≡ key_prefix key.now },
    ghost long: { len ≡ length key.now },
}

impl<'a> Point<'a> {
    /// The point of an operation on a key.
    pub(crate) fn new(key: &'a Key, place: usize, verb: Option<Verb>) -> Point<'a>
        requires { place < 2 ^ 32 }
        ensures key { result.key.now ≡ key.now }
        ensures place { result.place ≡ place }
        ensures verb { result.verb ≡ verb }
    {
        let (prefix, len) = (key.prefix(), key.bytes().len() as u8);
        Point {
            key,
            prefix,
            place: place as u32,
            len,
            verb,
        }
    }

    /// The operation's place in the batch.
    pub fn place(&self) -> usize
        ensures { result ≡ self.now.place }
    {
        self.place as usize
    }

    /// What the operation does at the key, where that and the value there tell its reply, so that the operation needn't be
    /// read for it.
    pub fn verb(&self) -> Option<Verb>
        ensures { result ≡ self.now.verb }
    {
        self.verb
    }

    /// Whether the operation is a get, which writes nothing.
    pub(crate) fn is_get(&self) -> bool
        ensures { Decides result (self.now.verb ≡ Some Get) }
    {
        matches!(self.verb, Some(Verb::Get))
    }

    /// Whether the prefix has all bytes of the key.
    pub(crate) fn is_short(&self) -> bool
        ensures { Decides result (length self.now.key.now ≤ 8) }
    {
        self.len <= PREFIX_LEN
    }

    /// How two points stand by their keys: most are told apart by their prefixes.
    pub(crate) fn by_key(&self, other: &Point<'_>) -> Ordering
        ensures { result ≡ key_cmp self.now.key.now other.now.key.now }
    {
        if self.prefix == other.prefix {
            self.by_length(other)
        } else {
            compare_prefixed(
                self.key.bytes(),
                self.prefix,
                other.key.bytes(),
                other.prefix,
            )
        }
    }

    /// How two points stand by their keys, and those of one key by their places.
    pub(crate) fn by_key_and_place(&self, other: &Point<'_>) -> Ordering
        ensures { result ≡ ordering_then (key_cmp self.now.key.now other.now.key.now)
            (nat_cmp self.now.place other.now.place) }
    {
        self.by_key(other).then(self.place.cmp(&other.place))
    }

    // How two points of one prefix stand. Where the key of one ends within it, the lengths decide, and no key is read.
    fn by_length(&self, other: &Point<'_>) -> Ordering
        requires { self.now.prefix ≡ other.now.prefix }
        ensures { result ≡ key_cmp self.now.key.now other.now.key.now }
    {
        know_bytes(self.key);
        know_bytes(other.key);
        if self.len <= PREFIX_LEN || other.len <= PREFIX_LEN {
            self.len.cmp(&other.len)
        } else {
            compare_prefixed(
                self.key.bytes(),
                self.prefix,
                other.key.bytes(),
                other.prefix,
            )
        }
    }

    /// Whether two points have different keys.
    pub(crate) fn differs(&self, other: &Point<'_>) -> bool
        ensures { result ≡ not (key_eq self.now.key.now other.now.key.now) }
    {
        self.by_key(other).is_ne()
    }

    /// Whether the key is below an end, whose prefix this is.
    pub(crate) fn is_below(&self, end: Option<&Key>, prefix: u64) -> bool
        requires { IfSome end (λ key. prefix ≡ key_prefix key.now) }
        ensures { result ≡ is_below_end (option_copied end.entry) self.now.key.now }
    {
        match end {
            Some(end) => compare_prefixed(
                self.key.bytes(),
                self.prefix,
                end.bytes(),
                prefix,
            ).is_lt(),
            None => true,
        }
    }
}

// That the bytes of a key are bytes. It does nothing.
fn know_bytes(key: &Key)
    ensures { IsBytes key.now }
{
    let bytes = key.bytes();
    let _len = bytes.len();
}
