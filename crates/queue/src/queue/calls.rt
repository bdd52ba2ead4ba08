// Making a queue, putting elements in, and taking them out.
ghost use Rattle.queue.specs.Queues.{held, Made, Takes, Puts};
ghost use Rattle.queue.specs.Sequences.{drop_one, holds};
ghost use Rattle.std.specs.List.{slice_get};
ghost use Rattle.std.specs.List.Sorted.{IsPermutation, IsSorted};
ghost use Rattle.std.specs.Prelude.{◌≡◌, true, ◌∷◌, length, drop, is_ok};

use super::Queue;
use crate::fault::QueueFault;
use crate::line::{put_in, take_from};
use crate::order::Ordered;

impl<'a, T: Ordered> Queue<'a, T> {
    // A queue with no element over the lent memory.
    pub fn new(places: &'a mut [T]) -> Queue<'a, T>
        ensures made { Made result places.old 0 }
        ensures lender { result.places.ghost_name ≡ places.entry.ghost_name }
    {
        Queue { places, count: 0 }
    }

    // A queue that holds the first `count` elements of the lent memory, or all of it where it has fewer.
    pub fn holding(places: &'a mut [T], count: usize) -> Queue<'a, T>
        ensures made { Made result places.old count }
        ensures lender { result.places.ghost_name ≡ places.entry.ghost_name }
    {
        let most = places.len();
        Queue {
            places,
            count: count.min(most),
        }
    }

    // How many elements the queue holds.
    pub fn len(&self) -> usize
        ensures { result ≡ length (held self.now) }
    {
        self.count.min(self.places.len())
    }

    // The first element, if there is one.
    pub fn front(&self) -> Option<T>
        ensures { result ≡ slice_get (held self.now) 0 }
    {
        self.places[..self.len()].first().copied()
    }

    // Puts an element in behind those that are at most it. Refused exactly if the memory is full.
    pub fn put(&mut self, new: T) -> Result<(), QueueFault>
        ensures puts { Puts T.order new self.old self.new result }
        ensures stays_sorted { IsSorted T.order (held self.old) → IsSorted T.order (held self.new) }
        ensures one_more { is_ok result ≡ true → IsPermutation (new ∷ held self.old) (held self.new) }
    {
        let count = self.len();
        let room = self.places.len();
        if count >= room {
            return Err(QueueFault::Full(room as u64));
        }
        put_in(self.places, count, new);
        self.count = count + 1;
        Ok(())
    }

    // Takes the first element out, if there is one.
    pub fn take_front(&mut self) -> Option<T>
        ensures first { result ≡ slice_get (held self.old) 0 }
        ensures rest { Takes (drop 1 (held self.old)) self.old self.new }
        ensures stays_sorted { IsSorted T.order (held self.old) → IsSorted T.order (held self.new) }
    {
        let count = self.len();
        self.count = count;
        let front = self.front()?;
        self.places.copy_within(1..count, 0);
        self.count = count - 1;
        Some(front)
    }

    // Takes the first element that is equal to this one out, and says whether there was one.
    pub fn take_out(&mut self, wanted: T) -> bool
        ensures found { result ≡ holds T.order wanted (held self.old) }
        ensures rest { Takes (drop_one T.order wanted (held self.old)) self.old self.new }
        ensures stays_sorted { IsSorted T.order (held self.old) → IsSorted T.order (held self.new) }
        ensures one_fewer { result ≡ true → IsPermutation (held self.old) (wanted ∷ held self.new) }
    {
        let count = self.len();
        let found = take_from(self.places, count, wanted);
        self.count = if found { count - 1 } else { count };
        found
    }
}
