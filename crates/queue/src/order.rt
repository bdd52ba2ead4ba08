// Elements that can stand in an ordered queue.
ghost use Rattle.std.specs.Cmp.{IsTotalOrder};
ghost use Rattle.std.specs.Ordering.{is_le};
ghost use Rattle.std.specs.Prelude.{◌≡◌, true, false};
ghost use Rattle.std.specs.declared.cmp.Ordering.{Ordering};
ghost use Rattle.std.specs.declared.cmp.Ordering.TheVariants.{Equal};

use std::cmp::Ordering;

// A total order that tells any two elements apart. It is an order of its own and no bound `Ord`, since an element may be queued by
// another order than the one by which it compares, as the greatest first.
pub trait Ordered: Copy {
    // How the first stands to the second: what is less goes first.
    ghost order: { Self → Self → Ordering };

    fn compare(&self, other: &Self) -> Ordering
        ensures { result ≡ order self.now other.now };

    ghost total: { IsTotalOrder order };

    // Equal elements are one and the same.
    ghost same: { (x y : Self) → order x y ≡ Equal → x ≡ y };
}

// What a queue rests on: any two elements compare, both ways only if they are the same, and it is transitive.
fn total_order<T: Ordered>()
    ensures any { (x y : T) → is_le (T.order x y) ≡ false → is_le (T.order y x) ≡ true }
    ensures same { (x y : T) → is_le (T.order x y) ≡ true → is_le (T.order y x) ≡ true → x ≡ y }
    ensures over { (x y z : T) → is_le (T.order x y) ≡ true → is_le (T.order y z) ≡ true → is_le (T.order x z) ≡ true }
{}
