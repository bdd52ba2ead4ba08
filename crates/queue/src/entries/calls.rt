// The orders in which held and ready jobs stand.
ghost use Rattle.queue.specs.Entries.{held_le, ready_le, ready_cmp};
ghost use Rattle.std.proofs.Common.{rules};
ghost use Rattle.std.specs.Cmp.{partial_order_from_own_ties};
ghost use Rattle.std.specs.Cmp.Rules.{comparing};
ghost use Rattle.std.specs.Ordering.{is_le, as_partial_cmp};
ghost use Rattle.std.specs.Prelude.{◌≡◌};

use super::{Held, Ready};
use crate::order::Ordered;
use std::cmp::Ordering;

// Held jobs are queued as they compare: by the tick until which they are held, and then by their task.
fn held_order()
    ensures queued { (x y : Held) → is_le (⟦<Held as Ordered>⟧.order x y) ≡ held_le x y }
    ensures compared { (x y : Held) → is_le (⟦<Held as Ord>⟧.cmp x y) ≡ held_le x y }
{}

impl Ordered for Held {
    ghost order = { ⟦<Held as Ord>⟧.cmp };

    fn compare(&self, other: &Held) -> Ordering {
        self.cmp(other)
    }

    ghost total = { Prim.search (comparing, rules) };

    ghost same = { Prim.search rules };
}

// Ready jobs are queued as they compare: by their rank, the greatest first, and then by their task.
fn ready_order()
    ensures queued { (x y : Ready) → is_le (⟦<Ready as Ordered>⟧.order x y) ≡ ready_le x y }
    ensures compared { (x y : Ready) → is_le (⟦<Ready as Ord>⟧.cmp x y) ≡ ready_le x y }
{}

impl Ord for Ready {
    ghost cmp = { ready_cmp };

    ghost total = { Prim.search (comparing, rules) };

    ghost matches_partial_cmp = { Prim.search (comparing, rules) };

    ghost matches_eq = { Prim.search (comparing, rules) };

    fn cmp(&self, other: &Ready) -> Ordering {
        if self.rank == other.rank {
            self.task.cmp(&other.task)
        } else {
            other.rank.cmp(&self.rank)
        }
    }
}

impl PartialOrd for Ready {
    ghost partial_cmp = { as_partial_cmp ready_cmp };

    ghost laws = { partial_order_from_own_ties (Prim.search (comparing, rules)) (Prim.search (comparing, rules)) };

    fn partial_cmp(&self, other: &Ready) -> Option<Ordering> {
        Some(self.cmp(other))
    }
}

impl Ordered for Ready {
    ghost order = { ⟦<Ready as Ord>⟧.cmp };

    fn compare(&self, other: &Ready) -> Ordering {
        self.cmp(other)
    }

    ghost total = { Prim.search (comparing, rules) };

    ghost same = { Prim.search rules };
}
