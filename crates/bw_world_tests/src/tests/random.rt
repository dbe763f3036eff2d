//! Random lists of events, with the world checked after each.
use super::{FLOOR, counted, lawful};
use crate::tests::assertions::assert_that;
use bw_core::{Event, Played};
use bw_world::World;

// Numbers by a linear congruence, so that a run can be had again.
#[derive(Drop)]
struct Random {
    state: u64,
}

impl Random {
    fn below(&mut self, bound: u64) -> u64 {
        self.state = self
            .state
            .wrapping_mul(6364136223846793005)
            .wrapping_add(1442695040888963407);
        (self.state >> 33) % bound.max(1)
    }
}

// An event that may go on with what the seat has under way.
fn event(random: &mut Random, world: &World) -> Event {
    let seat = random.below(world.books().len() as u64 + 1);
    let mut rec = random.below(7);
    let mut page = match random.below(8) {
        0..5 => 0,
        5..7 => 1,
        _ => 2,
    };
    if let Some(book) = world.books().get(seat as usize) {
        if let Some(under) = book.under() {
            rec = under.rec;
            page = under.page;
        }
    }
    match random.below(18) {
        0..2 => Event::Look { seat, page },
        2..8 => Event::Link { seat, rec, page },
        8..11 => Event::Try { seat, rec, page },
        11..12 => Event::Follow { seat, rec },
        12..15 => Event::Claim { seat },
        15..16 => Event::Split { seat },
        16..17 => Event::Join {
            into: seat,
            other: random.below(4),
        },
        _ => Event::Replace { seat, page },
    }
}

// How many events of each kind were done, and how many exchanges were lost.
#[derive(Drop)]
struct Tally {
    posts: u64,
    lost: u64,
    joins: u64,
    swaps: u64,
    late: u64,
}

impl Tally {
    fn count(&mut self, event: Event, played: Played) {
        match (event, played) {
            (Event::Try { .. }, Played::Done(_)) => self.posts = self.posts.saturating_add(1),
            (Event::Try { .. }, Played::Lost(_)) => self.lost = self.lost.saturating_add(1),
            (Event::Join { .. }, Played::Done(_)) => self.joins = self.joins.saturating_add(1),
            (Event::Replace { .. }, Played::Done(_)) => self.swaps = self.swaps.saturating_add(1),
            (Event::Replace { .. }, Played::Lost(_)) => self.late = self.late.saturating_add(1),
            _ => {}
        }
    }
}

#[test]
fn random_events_keep_the_world_lawful(rt: HostRuntime) {
    let alloc = counted(rt.alloc()).expect(&rt, "memory");
    let mut random = Random { state: 20260701 };
    let mut tally = Tally {
        posts: 0,
        lost: 0,
        joins: 0,
        swaps: 0,
        late: 0,
    };
    for _ in 0..300u64 {
        let mut world = World::start(alloc, &[7, 8], FLOOR, 6, 2, &[Some(5), None]).expect(
            &rt, "memory",
        );
        for _ in 0..80u64 {
            let event = event(&mut random, &world);
            let played = world.apply(event).expect(&rt, "memory");
            let is_lawful = lawful::is_lawful(alloc, &world).expect(&rt, "memory");
            assert_that(&rt, is_lawful);
            tally.count(event, played);
        }
    }
    assert_that(
        &rt,
        tally.posts >= 300 && tally.lost >= 30 && tally.joins >= 100,
    );
    assert_that(&rt, tally.swaps >= 50 && tally.late >= 50);
}
