use fee_backward::{Hop, hops};
use plan_base::{MAX, NoMemory, Toll};

#[test]
fn fees_and_delays_add_up_backward(rt: HostRuntime) -> Result<(), NoMemory> {
    let first = Toll {
        base: 1000,
        ppm: 1000,
        delay: 6,
    };
    let second = Toll {
        base: 0,
        ppm: 1000,
        delay: 6,
    };
    let wanted = [
        Hop {
            carried: 100_100,
            amount: 101_200,
            delay: 30,
        },
        Hop {
            carried: 100_000,
            amount: 100_100,
            delay: 24,
        },
    ];
    let both = hops(rt.alloc(), &[first, second], 100_000, 18)?;
    assert!(rt; both.as_slice() == wanted.as_slice());
    Ok(())
}

#[test]
fn amounts_are_cut_above_the_greatest(rt: HostRuntime) -> Result<(), NoMemory> {
    let dear = Toll {
        base: 0,
        ppm: u32::MAX,
        delay: 0,
    };
    let both = hops(rt.alloc(), &[dear, dear], MAX, 0)?;
    assert!(rt; both[0].carried == MAX + 1);
    assert!(rt; both[0].amount == MAX + 1);
    assert!(rt; both[1].carried == MAX);
    assert!(rt; both[1].amount == MAX + 1);
    let none = hops(rt.alloc(), &[], MAX, 0)?;
    assert!(rt; none.is_empty());
    Ok(())
}
