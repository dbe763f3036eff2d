//! Worked lists of events, each allocation refused in turn, and random lists of events.

mod assertions;
mod lawful;
mod random;
mod seats;

use crate::tests::assertions::{assert_equal, assert_that};
use bw_core::Event::{Claim, Follow, Join, Link, Look, Replace, Split, Try};
use bw_core::Played::{Done, Lost, NotAllowed};
use bw_core::{Event, Played};
use bw_key::Memory;
use bw_memory::{Alloc, Heap};
use bw_world::{Book, World};
use std::alloc::{AllocError, Global};
use std::process::Abort;
use std::test::Fail;

pub(crate) const FLOOR: u64 = 1 << 32;

pub(crate) fn counted(alloc: Global) -> Result<Alloc, Memory> {
    Ok(Heap::counted(alloc).leak(alloc)?)
}

// Two seats post to one page: the second is first, and the first has to try again.
const TWO_POSTS: [(Event, Played); 11] = [
    (Split { seat: 0 }, Done(1)),
    (Claim { seat: 0 }, Done(0)),
    (Claim { seat: 1 }, Done(1)),
    (Look { seat: 0, page: 0 }, Done(7)),
    (Look { seat: 1, page: 0 }, Done(7)),
    (
        Link {
            seat: 0,
            rec: 0,
            page: 0,
        },
        Done(7),
    ),
    (
        Link {
            seat: 1,
            rec: 1,
            page: 0,
        },
        Done(7),
    ),
    (
        Try {
            seat: 1,
            rec: 1,
            page: 0,
        },
        Done(4294967297),
    ),
    (
        Try {
            seat: 0,
            rec: 0,
            page: 0,
        },
        Lost(4294967297),
    ),
    (
        Link {
            seat: 0,
            rec: 0,
            page: 0,
        },
        Done(4294967297),
    ),
    (
        Try {
            seat: 0,
            rec: 0,
            page: 0,
        },
        Done(4294967296),
    ),
];

// What isn't allowed then.
const NOT_ALLOWED: [(Event, Played); 9] = [
    (
        Try {
            seat: 1,
            rec: 1,
            page: 0,
        },
        NotAllowed,
    ),
    (
        Link {
            seat: 1,
            rec: 0,
            page: 0,
        },
        NotAllowed,
    ),
    (
        Link {
            seat: 1,
            rec: 1,
            page: 0,
        },
        NotAllowed,
    ),
    (Look { seat: 2, page: 0 }, NotAllowed),
    (Look { seat: 0, page: 1 }, NotAllowed),
    (Follow { seat: 1, rec: 0 }, NotAllowed),
    (Join { into: 0, other: 0 }, NotAllowed),
    (Replace { seat: 0, page: 0 }, NotAllowed),
    (Claim { seat: 2 }, NotAllowed),
];

// And then the first seat takes over what the second had.
const JOINED: [(Event, Played); 5] = [
    (Follow { seat: 0, rec: 1 }, Done(7)),
    (Follow { seat: 1, rec: 0 }, NotAllowed),
    (Join { into: 0, other: 1 }, Done(1)),
    (Look { seat: 1, page: 0 }, NotAllowed),
    (Follow { seat: 0, rec: 0 }, Done(4294967297)),
];

// A page's first word is replaced under a record whose link it is.
const REPLACED: [(Event, Played); 7] = [
    (Split { seat: 0 }, Done(1)),
    (Claim { seat: 1 }, Done(0)),
    (
        Link {
            seat: 1,
            rec: 0,
            page: 0,
        },
        Done(7),
    ),
    (Replace { seat: 0, page: 0 }, Done(5)),
    (
        Try {
            seat: 1,
            rec: 0,
            page: 0,
        },
        Lost(5),
    ),
    (
        Link {
            seat: 1,
            rec: 0,
            page: 0,
        },
        Done(5),
    ),
    (
        Try {
            seat: 1,
            rec: 0,
            page: 0,
        },
        Done(4294967296),
    ),
];

// A replacement that comes after a record was posted.
const LATE: [(Event, Played); 6] = [
    (Claim { seat: 0 }, Done(0)),
    (
        Link {
            seat: 0,
            rec: 0,
            page: 0,
        },
        Done(7),
    ),
    (
        Try {
            seat: 0,
            rec: 0,
            page: 0,
        },
        Done(4294967296),
    ),
    (Split { seat: 0 }, Done(1)),
    (Replace { seat: 1, page: 0 }, Lost(4294967296)),
    (Replace { seat: 1, page: 0 }, NotAllowed),
];

// Five records in pieces of two.
const PIECES: [(Event, Played); 5] = [
    (Claim { seat: 0 }, Done(0)),
    (Claim { seat: 0 }, Done(2)),
    (Claim { seat: 0 }, Done(4)),
    (Claim { seat: 0 }, Done(6)),
    (Claim { seat: 0 }, NotAllowed),
];

// Ten splits leave a seat of width 1, which can't be split.
const SPLITS: [(Event, Played); 11] = [
    (Split { seat: 0 }, Done(1)),
    (Split { seat: 1 }, Done(2)),
    (Split { seat: 2 }, Done(3)),
    (Split { seat: 3 }, Done(4)),
    (Split { seat: 4 }, Done(5)),
    (Split { seat: 5 }, Done(6)),
    (Split { seat: 6 }, Done(7)),
    (Split { seat: 7 }, Done(8)),
    (Split { seat: 8 }, Done(9)),
    (Split { seat: 9 }, Done(10)),
    (Split { seat: 10 }, NotAllowed),
];

fn play(rt: &impl Abort, world: &mut World, played: &[(Event, Played)]) {
    for (event, answer) in played {
        let found = world.apply(*event).expect(rt, "memory");
        assert_equal(rt, found, *answer);
    }
}

fn show_book(text: &mut String<Alloc>, book: &Book, pages: u64) -> Result<(), AllocError> {
    write!(
        text,
        "\nbook {} {} {}",
        book.live(),
        book.width(),
        book.told()
    )?;
    show_posts(text, book)?;
    show_sight(text, book, pages)
}

// What the seat may post, and what it posted.
fn show_posts(text: &mut String<Alloc>, book: &Book) -> Result<(), AllocError> {
    for span in book.owned() {
        write!(text, " owns {}..{}", span.from, span.to)?;
    }
    for post in book.posted() {
        let (rec, page) = (post.rec, post.page);
        write!(text, " posted {rec} to {page} lost {}", post.lost)?;
    }
    Ok(())
}

// What it has under way, which words it tried to replace, and what it saw.
fn show_sight(text: &mut String<Alloc>, book: &Book, pages: u64) -> Result<(), AllocError> {
    if let Some(under) = book.under() {
        write!(text, " under {} to {}", under.rec, under.page)?;
        write!(text, " lost {} armed {}", under.lost, under.armed)?;
    }
    for swap in book.swaps() {
        write!(text, " tried {} {}", swap.page, swap.won)?;
    }
    for page in 0..pages {
        if let Some(seen) = book.seen(page) {
            write!(text, " saw {seen:?}")?;
        }
    }
    write!(text, " over {:?}", book.ends())
}

// The whole world as a text.
fn shown(alloc: Alloc, world: &World) -> Result<String<Alloc>, AllocError> {
    let mut text = format!(in alloc;
        "heads {:?} links {:?} next {}",
        world.heads(),
        world.links(),
        world.next()
    )?;
    for book in world.books() {
        show_book(&mut text, book, world.first().len() as u64)?;
    }
    Ok(text)
}

// Compares the text of a world.
fn is_shown(rt: &impl Abort, alloc: Alloc, world: &World, wanted: &str) {
    let text = shown(alloc, world).expect(rt, "memory");
    assert_equal(rt, text.as_str(), wanted);
}

// Compares the records of a page's chain, the newest first.
fn has_fresh(rt: &impl Abort, world: &World, page: u64, wanted: &[u64]) {
    assert!(rt; page < world.first().len() as u64);
    let fresh = world.fresh(page).expect(rt, "memory");
    assert_that(rt, fresh.as_slice() == wanted);
}

#[test]
fn two_seats_post_to_one_page(rt: HostRuntime) {
    let alloc = counted(rt.alloc()).expect(&rt, "memory");
    let mut world = World::start(alloc, &[7], FLOOR, 2, 1, &[None]).expect(&rt, "memory");
    play(&rt, &mut world, &TWO_POSTS);
    play(&rt, &mut world, &NOT_ALLOWED);
    is_shown(
        &rt,
        alloc,
        &world,
        "heads [4294967296] links [4294967297, 7] next 2\nbook true 512 false owns 0..1 posted 0 to 0 lost 1 saw [0, 1] over [7]\nbook true 512 false owns 1..2 posted 1 to 0 lost 0 saw [1] over [7]",
    );
    assert_that(&rt, world.first() == [7].as_slice());
    has_fresh(&rt, &world, 0, &[0, 1]);
    play(&rt, &mut world, &JOINED);
    is_shown(
        &rt,
        alloc,
        &world,
        "heads [4294967296] links [4294967297, 7] next 2\nbook true 1024 false owns 0..1 owns 1..2 posted 0 to 0 lost 1 posted 1 to 0 lost 0 saw [0, 1] over [7]\nbook false 0 false over []",
    );
}

#[test]
fn a_first_word_is_replaced(rt: HostRuntime) {
    let alloc = counted(rt.alloc()).expect(&rt, "memory");
    let mut world = World::start(alloc, &[7], FLOOR, 1, 1, &[Some(5)]).expect(&rt, "memory");
    play(&rt, &mut world, &REPLACED);
    is_shown(
        &rt,
        alloc,
        &world,
        "heads [4294967296] links [5] next 1\nbook true 512 false tried 0 true saw [] over [5]\nbook true 512 false owns 0..1 posted 0 to 0 lost 1 saw [0] over [5]",
    );
}

#[test]
fn a_replacement_is_late(rt: HostRuntime) {
    let alloc = counted(rt.alloc()).expect(&rt, "memory");
    let mut world = World::start(alloc, &[7], FLOOR, 1, 1, &[Some(5)]).expect(&rt, "memory");
    play(&rt, &mut world, &LATE);
    is_shown(
        &rt,
        alloc,
        &world,
        "heads [4294967296] links [7] next 1\nbook true 512 false owns 0..1 posted 0 to 0 lost 0 saw [0] over [7]\nbook true 512 false tried 0 false saw [0] over [7]",
    );
}

#[test]
fn pieces_and_widths(rt: HostRuntime) {
    let alloc = counted(rt.alloc()).expect(&rt, "memory");
    let mut world = World::start(alloc, &[7], FLOOR, 5, 2, &[None]).expect(&rt, "memory");
    play(&rt, &mut world, &PIECES);
    is_shown(
        &rt,
        alloc,
        &world,
        "heads [7] links [0, 0, 0, 0, 0] next 8\nbook true 1024 true owns 0..2 owns 2..4 owns 4..5 saw [] over [7]",
    );
    play(&rt, &mut world, &SPLITS);
}

// Plays events on a world, and drops it.
fn drop_world(rt: &impl Abort, alloc: Alloc) {
    let mut world = World::start(alloc, &[7], FLOOR, 2, 1, &[None]).expect(rt, "memory");
    play(rt, &mut world, &TWO_POSTS);
    assert_that(rt, alloc.used() > 0);
    drop(world);
}

#[test]
fn what_is_dropped_gives_its_memory_back(rt: HostRuntime) -> Result<(), Fail> {
    let alloc = Heap::within(rt.alloc(), 65536).leak(rt.alloc())?;
    drop_world(&rt, alloc);
    assert_equal(&rt, alloc.used(), 0);
    Ok(())
}

// Refuses each growth of this event in turn: nothing is changed then, and the event can be played after all.
fn refuse_each(rt: &impl Abort, alloc: Alloc, world: &mut World, event: Event, answer: Played) {
    let before = shown(alloc, world).expect(rt, "memory");
    for growth in 1..100u64 {
        alloc.refuse(growth);
        let found = world.apply(event);
        let was_refused = alloc.left() == 0 || alloc.left() > growth;
        alloc.refuse(0);
        if let Ok(found) = found {
            assert_that(rt, !was_refused && found == answer);
            return;
        }
        let after = shown(alloc, world).expect(rt, "memory");
        assert_that(rt, was_refused && after.as_str() == before.as_str());
    }
    panic!(rt; "no run met no refusal");
}

// Refuses each growth of each event, and of a join at the end.
fn refuse_all(rt: &impl Abort, alloc: Alloc, world: &mut World, played: &[(Event, Played)]) {
    for (event, answer) in played {
        refuse_each(rt, alloc, world, *event, *answer);
    }
    refuse_each(rt, alloc, world, Join { into: 0, other: 1 }, Done(1));
}

#[test]
fn each_growth_is_refused_in_turn(rt: HostRuntime) {
    let alloc = counted(rt.alloc()).expect(&rt, "memory");
    let mut world = World::start(alloc, &[7], FLOOR, 2, 1, &[None]).expect(&rt, "memory");
    refuse_all(&rt, alloc, &mut world, &TWO_POSTS);
    let mut world = World::start(alloc, &[7], FLOOR, 1, 1, &[Some(5)]).expect(&rt, "memory");
    refuse_all(&rt, alloc, &mut world, &REPLACED);
    let mut world = World::start(alloc, &[7], FLOOR, 1, 1, &[Some(5)]).expect(&rt, "memory");
    refuse_all(&rt, alloc, &mut world, &LATE);
}

// Each growth of a start and a replay is refused in turn.
#[test]
fn a_start_and_a_replay_are_refused(rt: HostRuntime) {
    let alloc = counted(rt.alloc()).expect(&rt, "memory");
    let events = [Claim { seat: 0 }, Split { seat: 0 }];
    for growth in 1..100u64 {
        alloc.refuse(growth);
        let found = World::replay(alloc, &[7, 8], FLOOR, 3, 2, &[None, Some(5)], &events);
        let was_refused = alloc.left() == 0 || alloc.left() > growth;
        alloc.refuse(0);
        assert_equal(&rt, was_refused, found.is_err());
        if let Ok(world) = found {
            assert_equal(&rt, world.books().len(), 2);
            return;
        }
    }
    panic!(rt; "no run met no refusal");
}

#[test]
fn a_list_of_events_is_replayed(rt: HostRuntime) {
    let alloc = counted(rt.alloc()).expect(&rt, "memory");
    let events = [
        Claim { seat: 0 },
        Link {
            seat: 0,
            rec: 1,
            page: 0,
        },
        Link {
            seat: 0,
            rec: 0,
            page: 0,
        },
    ];
    let world = World::replay(alloc, &[7], FLOOR, 1, 1, &[None], &events).expect(&rt, "memory");
    is_shown(
        &rt,
        alloc,
        &world,
        "heads [7] links [7] next 1\nbook true 1024 false owns 0..1 under 0 to 0 lost 0 armed true saw [] over [7]",
    );
}
