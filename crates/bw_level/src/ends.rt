// Ends of ranges of keys, of which none is the end of all keys.
ghost use Rattle.std.specs.Prelude.{◌≡◌, true, false};
ghost use Rattle.std.specs.Option.{option_copied};
ghost use Rattle.bw_level.specs.Scans.{EndsBelow, IsLowerEnd, Reaches};

use bw_key::Key;

/// The upper end of the keys that are below both ends: the lesser one, by one comparison of keys.
pub fn lower_end<'a>(left: Option<&'a Key>, right: Option<&'a Key>) -> Option<&'a Key>
    ensures { IsLowerEnd (option_copied left.entry) (option_copied right.entry) (option_copied result) }
{
    match (left, right) {
        (Some(a), Some(b)) => Some(if *a < *b { a } else { b }),
        (Some(a), None) => Some(a),
        (None, b) => b,
    }
}

/// Whether the first range doesn't end before the second, by one comparison of keys.
pub fn reaches(high: Option<&Key>, to: Option<&Key>) -> bool
    ensures reached { result ≡ true → Reaches (option_copied high.entry) (option_copied to.entry) }
    ensures missed { result ≡ false → EndsBelow (option_copied high.entry) (option_copied to.entry) }
{
    match (high, to) {
        (Some(high), Some(to)) => *to <= *high,
        (Some(_), None) => false,
        (None, _) => true,
    }
}
