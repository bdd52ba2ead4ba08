// The stores of a queue, over plain memory: the first `count` places hold the elements. The count stands beside the whole slice,
// since of a part that is lent through the field of a queue, whose type has no invariant, the checker knows its length alone
// afterwards.
ghost use Rattle.queue.specs.Sequences.{insertion, drop_one, holds, laid};
ghost use Rattle.std.specs.Ordering.{is_eq};
ghost use Rattle.std.specs.Prelude.{◌≡◌, ◌<◌, ◌≤◌, length, take, position};

use crate::order::Ordered;

// Puts the new element behind those of the elements from the front on that are at most it. The others move up by one place.
pub(crate) fn put_in<T: Ordered>(places: &mut [T], count: usize, new: T)
    requires { count < length places.old }
    ensures { places.new ≡ laid (insertion T.order new (take count places.old)) places.old }
{
    let held = &places[..count];
    let at = held
        .iter()
        .position(|e| e.compare(&new).is_gt())
        .unwrap_or(count);
    places.copy_within(at..count, at + 1);
    places[at] = new;
}

// Where the first element equal to this one stands.
fn place_of<T: Ordered>(held: &[T], wanted: T) -> Option<usize>
    ensures { result ≡ position (λ e. is_eq (T.order e wanted)) held.now }
{
    held.iter().position(|e| e.compare(&wanted).is_eq())
}

// Takes the first element that is equal to this one out, and says whether there was one. Those behind it move down over it.
pub(crate) fn take_from<T: Ordered>(places: &mut [T], count: usize, wanted: T) -> bool
    requires { count ≤ length places.old }
    ensures found { result ≡ holds T.order wanted (take count places.old) }
    ensures after { places.new ≡ laid (drop_one T.order wanted (take count places.old)) places.old }
{
    let Some(at) = place_of(&places[..count], wanted) else {
        return false;
    };
    places.copy_within(at + 1..count, at);
    true
}
