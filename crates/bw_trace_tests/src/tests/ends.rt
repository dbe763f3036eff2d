// What jobs print at the end.
use super::ports::Maker;
use crate::tests::assertions::{assert_equal, assert_that};
use bw_batch::Options;
use bw_trace::{Job, Source, Summary, TraceFault, run_trace};
use std::process::Abort;
use std::thread::Threads;

const PICTURE: &str =
    r##"<svg xmlns="http://www.w3.org/2000/svg" width="222" height="184" font-family="monospace" font-size="12">
<rect width="100%" height="100%" fill="#ffffff"/>
<g transform="translate(24 24)">
<title>leaf 0, from % to *, 1 pair, 1 write</title>
<rect width="174" height="100" rx="6" fill="#eaf2fb" stroke="#2f6db3"/>
<text x="12" y="22" font-weight="bold">leaf 0</text>
<text x="12" y="40">from %</text>
<text x="12" y="56">to *</text>
<rect x="12" y="66" width="150" height="8" fill="#d9dfe6"/>
<rect x="12" y="66" width="37" height="8" fill="#2f6db3"/>
<text x="12" y="90">1 pair of 4</text>
<path d="M32 100v12" stroke="#c0392b"/>
<rect x="12" y="112" width="150" height="24" rx="5" fill="#fdeceb" stroke="#c0392b"/>
<text x="20" y="128">1 write</text>
</g>
</svg>
"##;

impl<R: Abort + Threads + Sync> Maker<'_, R> {
    // Does a job on pages of four, with a writer whose call of this number fails.
    fn end_of(&self, text: &str, job: Job, call: u64, output: &str) -> Result<Summary, TraceFault> {
        let options = Options::new(4, 64, 1, 4, 0, 65_536, 1_048_576).expect(self.rt, "options");
        let mut source = Source::new(self.alloc, self.pieces(text, 5), 1000).expect(
            self.rt, "memory",
        );
        let mut out = self.sink_failing_at(call);
        let outcome = run_trace(self.rt, self.alloc, &mut source, &mut out, options, job);
        self.expect_text(&out, output);
        outcome
    }
}

#[test]
fn each_job_prints_its_end(rt: HostRuntime) {
    let make = Maker::new(&rt, rt.alloc());
    for (job, text) in [
        (Job::Run, "new\n"),
        (Job::Dump, "contents 1\na 1\n"),
        (Job::Shape, "leaf % * 1 1\n"),
        (Job::Picture, PICTURE),
    ] {
        assert_that(&rt, make.end_of("upsert a 1\n", job, 0, text).is_ok());
    }
}

#[test]
fn a_failed_write_of_an_end_is_a_fault(rt: HostRuntime) {
    let make = Maker::new(&rt, rt.alloc());
    for job in [Job::Dump, Job::Shape, Job::Picture] {
        assert_equal(
            &rt,
            make.end_of("upsert a 1\n", job, 1, ""),
            Err(TraceFault::Write),
        );
    }
}

// A job that prints nothing at the end asks nothing of its writer there.
#[test]
fn no_end_is_no_call(rt: HostRuntime) {
    let make = Maker::new(&rt, rt.alloc());
    assert_that(
        &rt,
        make.end_of("upsert a 1\n", Job::Run, 2, "new\n").is_ok(),
    );
    assert_that(&rt, make.end_of("", Job::Run, 1, "").is_ok());
}
