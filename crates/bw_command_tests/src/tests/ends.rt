// Each growth of memory refused in turn, where a job prints at the end alone.
use super::ports::{Runner, TWO_BATCHES};
use crate::tests::assertions::{assert_equal, assert_that};
use std::process::Abort;
use std::rt::Files;
use std::thread::Threads;
use std::time::Clock;

// The pages where both batches were accepted, and where the first one was refused. The second one writes nothing.
const ONE_PAIR: &str = "leaf % * 1 2\n";

const NO_PAIR: &str = "leaf % * 0 0\n";

const PICTURE_OF_ONE_PAIR: &str =
    r##"<svg xmlns="http://www.w3.org/2000/svg" width="222" height="184" font-family="monospace" font-size="12">
<rect width="100%" height="100%" fill="#ffffff"/>
<g transform="translate(24 24)">
<title>leaf 0, from % to *, 1 pair, 2 writes</title>
<rect width="174" height="100" rx="6" fill="#eaf2fb" stroke="#2f6db3"/>
<text x="12" y="22" font-weight="bold">leaf 0</text>
<text x="12" y="40">from %</text>
<text x="12" y="56">to *</text>
<rect x="12" y="66" width="150" height="8" fill="#d9dfe6"/>
<rect x="12" y="66" width="2" height="8" fill="#2f6db3"/>
<text x="12" y="90">1 pair of 64</text>
<path d="M32 100v12" stroke="#c0392b"/>
<rect x="12" y="112" width="150" height="24" rx="5" fill="#fdeceb" stroke="#c0392b"/>
<text x="20" y="128">2 writes</text>
</g>
</svg>
"##;

const PICTURE_OF_NO_PAIR: &str =
    r##"<svg xmlns="http://www.w3.org/2000/svg" width="222" height="184" font-family="monospace" font-size="12">
<rect width="100%" height="100%" fill="#ffffff"/>
<g transform="translate(24 24)">
<title>leaf 0, from % to *, 0 pairs</title>
<rect width="174" height="100" rx="6" fill="#eaf2fb" stroke="#2f6db3"/>
<text x="12" y="22" font-weight="bold">leaf 0</text>
<text x="12" y="40">from %</text>
<text x="12" y="56">to *</text>
<rect x="12" y="66" width="150" height="8" fill="#d9dfe6"/>
<rect x="12" y="66" width="0" height="8" fill="#2f6db3"/>
<text x="12" y="90">0 pairs of 64</text>
</g>
</svg>
"##;

impl<R: Abort + Files + AllocGlobal + Threads + Clock + Sync> Runner<'_, R> {
    // Does a job where this growth is refused. Its status, and how many growths were left to make.
    fn refused_end(&self, job: &'static str, growth: u64, whole: &str, other: &str) -> (u8, u64) {
        let mut out = self.sink();
        let mut errors = self.sink();
        let input = self.pieces(TWO_BATCHES);
        self.alloc.refuse(growth);
        let status = self.status(&[job], input, &mut out, &mut errors);
        let left = self.alloc.left();
        self.alloc.refuse(0);
        let text = out.taken.as_slice();
        match status {
            0 => assert_equal(self.rt, text, whole.as_bytes()),
            4 => {
                let of_first = text == other.as_bytes();
                let of_second = text == whole.as_bytes();
                assert_that(self.rt, of_first || of_second);
            }
            _ => assert_that(self.rt, status == 1 && text.is_empty()),
        }
        (status, left)
    }

    // Each growth of a job is refused in turn, up to a run that makes fewer.
    fn refuse_each(&self, job: &'static str, whole: &str, other: &str) {
        let mut faults: u64 = 0;
        for growth in 1..1000u64 {
            let (status, left) = self.refused_end(job, growth, whole, other);
            if status == 1 {
                faults = faults.saturating_add(1);
            }
            if left > 0 && left <= growth {
                assert_eq!(self.rt; status, 0, "none was refused");
                assert_that(self.rt, faults > 0);
                return;
            }
        }
        panic!(self.rt; "no run met no refusal");
    }
}

// What the index holds, in the same cases.
const CONTENTS: &str = "contents 1\na 2\n";

const NO_CONTENTS: &str = "contents 0\n";

#[test]
fn contents_are_listed_whole_or_not_at_all(rt: HostRuntime) {
    let runner = Runner::new(&rt, rt.alloc());
    runner.refuse_each("dump", CONTENTS, NO_CONTENTS);
}

#[test]
fn pages_are_listed_whole_or_not_at_all(rt: HostRuntime) {
    let runner = Runner::new(&rt, rt.alloc());
    runner.refuse_each("shape", ONE_PAIR, NO_PAIR);
}

#[test]
fn a_picture_is_drawn_whole_or_not_at_all(rt: HostRuntime) {
    let runner = Runner::new(&rt, rt.alloc());
    runner.refuse_each("picture", PICTURE_OF_ONE_PAIR, PICTURE_OF_NO_PAIR);
}
