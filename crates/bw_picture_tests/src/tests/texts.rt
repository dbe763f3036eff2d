// Whole pictures, against texts that were written by hand.
use super::making::{THREE, drawn};
use crate::tests::assertions::assert_equal;
use bw_fixtures::heap;

const NO_PAGES: &str =
    r##"<svg xmlns="http://www.w3.org/2000/svg" width="24" height="184" font-family="monospace" font-size="12">
<rect width="100%" height="100%" fill="#ffffff"/>
</svg>
"##;

// The leaves stand side by side, 198 pixels apart, and the root above the first one.
const THREE_PAGES: &str =
    r##"<svg xmlns="http://www.w3.org/2000/svg" width="420" height="344" font-family="monospace" font-size="12">
<rect width="100%" height="100%" fill="#ffffff"/>
<g transform="translate(24 184)">
<title>leaf 0, from % to c, 2 pairs, 1 write</title>
<rect width="174" height="100" rx="6" fill="#eaf2fb" stroke="#2f6db3"/>
<text x="12" y="22" font-weight="bold">leaf 0</text>
<text x="12" y="40">from %</text>
<text x="12" y="56">to c</text>
<rect x="12" y="66" width="150" height="8" fill="#d9dfe6"/>
<rect x="12" y="66" width="75" height="8" fill="#2f6db3"/>
<text x="12" y="90">2 pairs of 4</text>
<path d="M32 100v12" stroke="#c0392b"/>
<rect x="12" y="112" width="150" height="24" rx="5" fill="#fdeceb" stroke="#c0392b"/>
<text x="20" y="128">1 write</text>
</g>
<g transform="translate(222 184)">
<title>leaf 4, from c to *, 1 pair</title>
<rect width="174" height="100" rx="6" fill="#eaf2fb" stroke="#2f6db3"/>
<text x="12" y="22" font-weight="bold">leaf 4</text>
<text x="12" y="40">from c</text>
<text x="12" y="56">to *</text>
<rect x="12" y="66" width="150" height="8" fill="#d9dfe6"/>
<rect x="12" y="66" width="37" height="8" fill="#2f6db3"/>
<text x="12" y="90">1 pair of 4</text>
</g>
<g transform="translate(24 24)">
<title>inner page 3, from % to *, 2 children</title>
<rect width="174" height="100" rx="6" fill="#fbf0e6" stroke="#b3652f"/>
<text x="12" y="22" font-weight="bold">inner page 3</text>
<text x="12" y="40">from %</text>
<text x="12" y="56">to *</text>
<rect x="12" y="66" width="150" height="8" fill="#d9dfe6"/>
<rect x="12" y="66" width="75" height="8" fill="#b3652f"/>
<text x="12" y="90">2 children of 4</text>
<path d="M87 100v20M0 128v-8h372v8" fill="none" stroke="#b3652f"/>
</g>
</svg>
"##;

#[test]
fn no_pages_are_a_white_ground(rt: HostRuntime) {
    let alloc = heap(rt.alloc()).expect(&rt, "memory");
    assert_equal(&rt, drawn(&rt, alloc, &[]).as_slice(), NO_PAGES.as_bytes());
}

#[test]
fn three_pages_are_drawn(rt: HostRuntime) {
    let alloc = heap(rt.alloc()).expect(&rt, "memory");
    assert_equal(
        &rt,
        drawn(&rt, alloc, THREE).as_slice(),
        THREE_PAGES.as_bytes(),
    );
}
