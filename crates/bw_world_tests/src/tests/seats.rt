//! A world with 64 seats, each of which posts a record to the one page, and which are joined again.
use super::{FLOOR, counted};
use crate::tests::assertions::{assert_equal, assert_that};
use bw_core::Event::{Claim, Join, Link, Look, Split, Try};
use bw_core::Played::{Done, Lost};
use bw_core::{Event, Played};
use bw_world::World;
use std::process::Abort;

const SEATS: u64 = 64;

fn expect(rt: &impl Abort, world: &mut World, event: Event, answer: Played) {
    let found = world.apply(event).expect(rt, "memory");
    assert_equal(rt, found, answer);
}

// Splits each of so many seats. The new ones come behind them, in their order.
fn split_each(rt: &impl Abort, world: &mut World, seats: u64) {
    for seat in 0..seats {
        expect(rt, world, Split { seat }, Done(seats.saturating_add(seat)));
    }
}

// Each seat claims a record, sees the page as it was, and links the record.
fn link_each(rt: &impl Abort, world: &mut World) {
    for seat in 0..SEATS {
        let rec = seat;
        expect(rt, world, Claim { seat }, Done(rec));
        expect(rt, world, Look { seat, page: 0 }, Done(7));
        expect(rt, world, Link { seat, rec, page: 0 }, Done(7));
    }
}

// The exchange of each seat but the first is lost, and then done over the record of the seat before.
fn try_each(rt: &impl Abort, world: &mut World) {
    let mut head = FLOOR;
    expect(
        rt,
        world,
        Try {
            seat: 0,
            rec: 0,
            page: 0,
        },
        Done(head),
    );
    for seat in 1..SEATS {
        let rec = seat;
        expect(rt, world, Try { seat, rec, page: 0 }, Lost(head));
        expect(rt, world, Link { seat, rec, page: 0 }, Done(head));
        head = FLOOR + rec;
        expect(rt, world, Try { seat, rec, page: 0 }, Done(head));
    }
}

// Each seat is told that no record is left, and the first takes over what the others have.
fn join_each(rt: &impl Abort, world: &mut World) {
    for seat in 0..SEATS {
        expect(rt, world, Claim { seat }, Done(SEATS + seat));
    }
    for other in 1..SEATS {
        expect(rt, world, Join { into: 0, other }, Done(other));
    }
}

#[test]
fn sixty_four_seats_post_to_one_page(rt: HostRuntime) {
    let alloc = counted(rt.alloc()).expect(&rt, "memory");
    let mut world = World::start(alloc, &[7], FLOOR, SEATS, 1, &[None]).expect(&rt, "memory");
    for seats in [1, 2, 4, 8, 16, 32] {
        split_each(&rt, &mut world, seats);
    }
    link_each(&rt, &mut world);
    try_each(&rt, &mut world);
    join_each(&rt, &mut world);
    let book = world.books().first().expect(&rt, "a book");
    let chain = book.seen(0).expect(&rt, "a page");
    assert_that(&rt, chain.iter().copied().eq((0..SEATS).rev()));
    assert_that(&rt, book.width() == 1024 && book.told());
    assert_that(
        &rt,
        book.owned().len() == SEATS as usize && book.posted().len() == SEATS as usize,
    );
}
