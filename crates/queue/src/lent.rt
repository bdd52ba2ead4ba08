// What the lender of a queue's memory knows once the queue is let go.
ghost use Rattle.std.specs.Prelude.{◌≡◌, ◌<◌, [], ◌∷◌, length};
ghost use Rattle.queue.specs.Sequences.{laid};

use crate::order::Ordered;
use crate::queue::Queue;

// One element put into an empty queue stands in the first place, and every other place is as it was.
fn put_first<T: Ordered>(places: &mut [T], new: T)
    requires { 0 < length places.old }
    ensures { places.new ≡ laid (new ∷ []) places.old }
{
    let mut queue = Queue::new(places);
    let _ = queue.put(new);
}
