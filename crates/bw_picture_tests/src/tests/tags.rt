// Whether the tags of a text are closed.

use crate::tests::assertions::assert_that;

// What was read so far.
#[derive(Clone, Copy)]
struct Reading {
    // How many tags are open.
    open: u64,
    // Whether this is within a tag, and its first byte and the last one so far.
    in_tag: bool,
    first: u8,
    last: u8,
    // Whether a tag began within a tag, or one was closed that was not open.
    wrong: bool,
}

// At the end of a tag: `</g>` closes one, `<rect/>` opens none.
fn ended(reading: Reading) -> Reading {
    if !reading.in_tag || reading.first == b'/' && reading.open == 0 {
        return Reading {
            wrong: true,
            ..reading
        };
    }
    let open = if reading.first == b'/' {
        reading.open - 1
    } else if reading.last == b'/' {
        reading.open
    } else {
        reading.open.saturating_add(1)
    };
    Reading {
        open,
        in_tag: false,
        ..reading
    }
}

fn read(reading: Reading, byte: u8) -> Reading {
    match byte {
        b'<' => Reading {
            in_tag: true,
            first: 0,
            wrong: reading.wrong || reading.in_tag,
            ..reading
        },
        b'>' => ended(reading),
        _ => Reading {
            first: if reading.first == 0 {
                byte
            } else {
                reading.first
            },
            last: byte,
            ..reading
        },
    }
}

/// Whether each `<` has its `>`, and each tag that was opened is closed.
pub fn are_closed(text: &[u8]) -> bool {
    let mut reading = Reading {
        open: 0,
        in_tag: false,
        first: 0,
        last: 0,
        wrong: false,
    };
    for byte in text {
        reading = read(reading, *byte);
    }
    reading.open == 0 && !reading.in_tag && !reading.wrong
}

#[test]
fn open_tags_are_found(rt: HostRuntime) {
    assert_that(&rt, are_closed(b"<g x=\"1\"><a/>text</g>"));
    assert_that(&rt, !are_closed(b"<g><a></g>"));
    assert_that(&rt, !are_closed(b"<g></g></g>"));
    assert_that(&rt, !are_closed(b"<g <a/>></g>"));
    assert_that(&rt, !are_closed(b"<g></g"));
}
