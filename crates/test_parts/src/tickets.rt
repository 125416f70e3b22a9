use example_tickets::{draw, draw_in_turn};
use hl::{Duty, Fault, Opening, Params};
use std::test::Fail;

// A log with so many threads and a crew.
fn opening_of(params: Params, threads: u64) -> Opening<Params> {
    Opening {
        params,
        riders: threads.min(1_000) + 4,
        journal: 10_000,
        stamp: 1,
    }
}

// Four threads bump once each beside a crew: no two get the same ticket, and each ticket is that of an epoch that ended.
#[test]
fn four_tickets_differ(rt: HostRuntime) -> Result<(), Fail> {
    let params = Params::checked(64, 64, 4, 16).ok_or(Fault::Size)?;
    let duty = Duty::checked(params, 2, 32).ok_or(Fault::Size)?;
    let drawn = draw(&rt, rt.alloc(), opening_of(params, 4), duty)?;
    let epoch = drawn.ending?.snapshot.epoch;
    let mut tickets = Vec::new(rt.alloc());
    for out in drawn.out.outs {
        tickets.push(out??)?;
    }
    assert!(rt; tickets.iter().all(|ticket| 1 <= *ticket && *ticket < epoch));
    tickets.sort_unstable();
    tickets.dedup();
    assert_eq!(rt; tickets.len(), 4);
    Ok(())
}

// One of two threads bumps, and the other does once it was told: the tickets are in that order. Where the second one isn't
// told in time, it is tried again.
#[test]
fn a_ticket_is_drawn_after_another(rt: HostRuntime) -> Result<(), Fail> {
    let params = Params::checked(64, 64, 2, 16).ok_or(Fault::Size)?;
    let duty = Duty::checked(params, 2, 32).ok_or(Fault::Size)?;
    for _ in 0..100 {
        if let Some(drawn) = draw_in_turn(&rt, rt.alloc(), opening_of(params, 2), duty) {
            assert!(rt; drawn.first < drawn.second && drawn.second < drawn.ending.snapshot.epoch);
            return Ok(());
        }
    }
    Err("never told".into())
}
