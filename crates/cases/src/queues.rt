// Queues over lent memory.
ghost use Rattle.std.proofs.Common.{rules};
ghost use Rattle.std.specs.Cmp.Rules.{comparing};
ghost use Rattle.std.specs.Ordering.{flip_args};

use crate::says::{is_refused, refusal};
use queue::entries::{Held, Ready};
use queue::order::Ordered;
use queue::queue::Queue;
use std::cmp::Ordering;
use std::test::Fail;
use tasks::fault::Layer;

// A rank, which compares as its number does and is queued the greatest first.
#[derive(Clone, Copy, PartialEq, Eq, PartialOrd, Ord, Debug)]
struct Rank(u8);

impl Ordered for Rank {
    ghost order = { flip_args ⟦<Rank as Ord>⟧.cmp };

    fn compare(&self, other: &Rank) -> Ordering {
        other.cmp(self)
    }

    ghost total = { Prim.search (comparing, rules) };

    ghost same = { Prim.search rules };
}

fn held(until: u32, task: usize) -> Held {
    Held { until, task }
}

fn ready(rank: u8, task: usize) -> Ready {
    Ready { rank, task }
}

// Held jobs come by tick and then by task; an equal element goes behind.
#[test]
fn held_jobs(rt: HostRuntime) -> Result<(), Fail> {
    let mut places = [held(0, 0); 4];
    let mut queue = Queue::new(&mut places);
    assert_eq!(rt; queue.front(), None);
    assert_eq!(rt; queue.take_front(), None);
    queue.put(held(7, 2))?;
    queue.put(held(5, 9))?;
    queue.put(held(7, 1))?;
    queue.put(held(5, 9))?;
    is_refused(&rt, queue.put(held(1, 1)), refusal(22, Layer::Run, 4))?;
    assert_eq!(rt; queue.len(), 4);
    assert_eq!(rt; queue.take_front(), Some(held(5, 9)));
    assert!(rt; queue.take_out(held(7, 2)));
    assert!(rt; !queue.take_out(held(7, 2)));
    assert_eq!(rt; queue.front(), Some(held(5, 9)));
    assert_eq!(rt; queue.len(), 2);
    Ok(())
}

// Ready jobs come by rank, the greatest first, and then by task. Places past the elements keep what they held.
#[test]
fn ready_jobs(rt: HostRuntime) -> Result<(), Fail> {
    let mut places = [ready(0, 0); 3];
    let mut queue = Queue::new(&mut places);
    queue.put(ready(2, 5))?;
    queue.put(ready(9, 6))?;
    queue.put(ready(9, 3))?;
    assert_eq!(rt; queue.take_front(), Some(ready(9, 3)));
    assert_eq!(rt; places[0], ready(9, 6));
    assert_eq!(rt; places[1], ready(2, 5));
    assert_eq!(rt; places[2], ready(2, 5));
    Ok(())
}

// Elements stand by the order of their trait, also where they compare by another one: the greatest rank first.
#[test]
fn ranks_by_another_order(rt: HostRuntime) -> Result<(), Fail> {
    let mut places = [Rank(0); 4];
    let mut queue = Queue::new(&mut places);
    queue.put(Rank(2))?;
    queue.put(Rank(9))?;
    queue.put(Rank(5))?;
    queue.put(Rank(9))?;
    assert!(rt; Rank(2) < Rank(9));
    assert!(rt; queue.take_out(Rank(5)));
    assert!(rt; !queue.take_out(Rank(5)));
    assert_eq!(rt; queue.take_front(), Some(Rank(9)));
    assert_eq!(rt; queue.take_front(), Some(Rank(9)));
    assert_eq!(rt; queue.take_front(), Some(Rank(2)));
    assert_eq!(rt; queue.take_front(), None);
    Ok(())
}

// No place, one place, and a number of elements above the memory's length.
#[test]
fn small_memory(rt: HostRuntime) -> Result<(), Fail> {
    let mut none: [Held; 0] = [];
    let mut empty = Queue::new(&mut none);
    is_refused(&rt, empty.put(held(1, 1)), refusal(22, Layer::Run, 0))?;
    let mut one = [held(0, 0); 1];
    let mut single = Queue::new(&mut one);
    single.put(held(3, 3))?;
    is_refused(&rt, single.put(held(2, 2)), refusal(22, Layer::Run, 1))?;
    assert_eq!(rt; single.take_front(), Some(held(3, 3)));
    let mut two = [held(8, 0), held(4, 1)];
    let mut unsorted = Queue::holding(&mut two, 9);
    assert_eq!(rt; unsorted.len(), 2);
    assert_eq!(rt; unsorted.take_front(), Some(held(8, 0)));
    assert_eq!(rt; unsorted.take_front(), Some(held(4, 1)));
    Ok(())
}

// 32 places filled from the last to the first, and drained in order.
#[test]
fn filled_and_drained(rt: HostRuntime) -> Result<(), Fail> {
    let mut places = [held(0, 0); 32];
    let mut queue = Queue::new(&mut places);
    for until in (0..32).rev() {
        queue.put(held(until, 0))?;
    }
    is_refused(&rt, queue.put(held(0, 0)), refusal(22, Layer::Run, 32))?;
    for until in 0..32 {
        assert_eq!(rt; queue.take_front(), Some(held(until, 0)));
    }
    assert_eq!(rt; queue.len(), 0);
    Ok(())
}
