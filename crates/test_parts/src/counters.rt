use example_counters::{Add, count};
use hl::{Duty, Fault, MemoryDevice, Opening, Params};
use std::test::Fail;

// A thread's add to a counter.
fn add(thread: u64, counter: u64, number: u64) -> Add {
    Add {
        thread,
        counter,
        number,
    }
}

// Three threads add to the counters beside a crew, and no page is closed or flushed: each thread returns what it added, and
// each counter's word in memory is the sum. There is no counter 4, and no thread 3.
#[test]
fn three_threads_count(rt: HostRuntime) -> Result<(), Fail> {
    let params = Params::checked(64, 64, 4, 16).ok_or(Fault::Size)?;
    let duty = Duty::checked(params, 2, 32).ok_or(Fault::Size)?;
    let opening = Opening {
        params,
        riders: 7,
        journal: 10_000,
        stamp: 1,
    };
    let adds = [
        add(0, 0, 5),
        add(0, 0, 6),
        add(1, 0, 700),
        add(1, 3, 1),
        add(2, 1, u64::MAX),
        add(2, 1, 3),
        add(2, 4, 9),
        add(3, 2, 9),
    ];
    let device = MemoryDevice::open(rt.alloc(), 8, 8 + 8 * 64)?;
    let counted = count(&rt, rt.alloc(), opening, duty, device, &adds)?;
    assert_eq!(rt; counted.ending.snapshot.six.closed, 0);
    let mut sums = Vec::new(rt.alloc());
    for out in counted.outs {
        sums.push(out?)?;
    }
    assert_eq!(rt; sums.len(), 3);
    assert_eq!(rt; sums[0], [11, 0, 0, 0]);
    assert_eq!(rt; sums[1], [700, 0, 0, 1]);
    assert_eq!(rt; sums[2], [0, 2, 0, 0]);
    assert_eq!(rt; counted.sums, [Some(711), Some(2), Some(0), Some(1)]);
    Ok(())
}

// Six threads place a record of a page each, of which the crew keeps two: the counters' page has left memory, and one of the
// device's two writers has it. Each counter's word there is the sum of what the threads returned. The adds are many, so that
// some are refused once the page is read-only.
#[test]
fn counters_leave_memory(rt: HostRuntime) -> Result<(), Fail> {
    let params = Params::checked(4, 8, 8, 16).ok_or(Fault::Size)?;
    let duty = Duty::checked(params, 1, 2).ok_or(Fault::Size)?;
    let opening = Opening {
        params,
        riders: 10,
        journal: 100_000,
        stamp: 1,
    };
    let mut adds = Vec::new(rt.alloc());
    for number in 0..6_000u64 {
        adds.push(add(number % 6, number % 5, number << 54))?;
    }
    let device = MemoryDevice::open(rt.alloc(), 8, 40)?;
    let counted = count(&rt, rt.alloc(), opening, duty, device, &adds)?;
    assert!(rt;
        counted.ending.snapshot.six.closed >= 4,
        "the counters' page is in memory still"
    );
    let mut sums = [0u64; 4];
    for out in counted.outs {
        for (sum, more) in sums.iter_mut().zip(out?) {
            *sum = sum.wrapping_add(more);
        }
    }
    assert_eq!(rt; counted.sums, sums.map(|sum| Some(sum)));
    Ok(())
}
