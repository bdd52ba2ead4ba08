// Making a vector in fixed memory, putting elements in, and reading it.
ghost use Rattle.std.specs.Prelude.{◌≡◌, ⊤, [], ◌∷◌, length, take, replicate};
ghost use Rattle.fixed.specs.FixedVec.{elements, Appends};

use super::{FixedVec, Full};
use std::alloc::AllocError;

// A copy; it cannot fail. A derive is refused where a struct with a ghost field has a type parameter.
impl<T: Copy, const N: usize> Clone for FixedVec<T, N> {
    ghost is_clone = { λ v copy. copy ≡ v };

    ghost is_infallible = { λ _. ⊤ };

    fn clone(&self) -> Result<FixedVec<T, N>, AllocError> {
        Ok(*self)
    }
}

impl<T: Copy, const N: usize> FixedVec<T, N> {
    // A vector with no element. In each place that no element has taken stands `blank`.
    pub fn new(blank: T) -> FixedVec<T, N>
        ensures empty { elements result ≡ [] }
        ensures blank { result.places ≡ replicate N blank }
    {
        FixedVec {
            places: [blank; N],
            len: 0,
        }
    }

    // A vector of the first `len` of these places, or of all of them where there are fewer.
    pub fn first_of(places: [T; N], len: usize) -> FixedVec<T, N>
        ensures elements { elements result ≡ take len places }
        ensures places { result.places ≡ places }
    {
        FixedVec {
            places,
            len: len.min(N),
        }
    }

    // How many elements there are.
    pub fn len(&self) -> usize
        ensures { result ≡ length (elements self.now) }
    {
        self.as_slice().len()
    }

    // The elements, first to last.
    pub fn as_slice(&self) -> &[T]
        ensures { result.now ≡ elements self.now }
    {
        &self.places[..self.len]
    }

    // Every place: the elements, and behind them what stands in the places that no element has taken.
    pub fn places(&self) -> &[T]
        ensures { result.now ≡ self.now.places }
    {
        &self.places[..]
    }

    // Puts an element behind the others. Refused exactly if no place is left; the vector then stays as it was.
    pub fn push(&mut self, element: T) -> Result<(), Full>
        ensures { Appends N (element ∷ []) self.old self.new result }
    {
        if self.len >= N {
            return Err(Full);
        }
        self.places[self.len] = element;
        self.len += 1;
        Ok(())
    }

    // Puts elements behind the others. Refused exactly if too few places are left; the vector then stays as it was.
    pub fn extend_from_slice(&mut self, more: &[T]) -> Result<(), Full>
        ensures { Appends N more.now self.old self.new result }
    {
        if N - self.len < more.len() {
            return Err(Full);
        }
        let len = self.len;
        let places = &mut self.places[..];
        places[len..len + more.len()].copy_from_slice(more);
        self.len = len + more.len();
        Ok(())
    }
}
