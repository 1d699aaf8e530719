//! Lists of bounded length, for all of which memory is had when they are made.
#![tactic(auto)]

ghost use Rattle.std.specs.Prelude.{◌≡◌, ℕ, ◌+◌, ◌-◌, ◌<◌, ◌≤◌, ◌⊎◌, [], ◌∷◌, ◌++◌, length, replicate, take, set as replaced, IfOk, slice_index_or};

use std::alloc::{AllocError, Global};
use std::marker::Model;
use std::ops::Range;

/// A list of at most `MOST` items, with room for all of them: no call but `new` needs memory.
#[derive(Drop)]
pub struct BoundedVec<T, const MOST: usize> {
    items: Vec<T>,
}

// Clauses see the items.
impl<T, const MOST: usize> Model for BoundedVec<T, MOST> {
    ghost use Rattle.std.specs.Prelude.{List, ◌≤◌, vec_len, vec_capacity};

    ghost Value = { List T };

    ghost view = { λ v. v.items.items };

    ghost invariant = { λ v. (MOST ≤ vec_capacity v.items) × (vec_len v.items ≤ MOST) };
}

impl<T: Copy, const MOST: usize> BoundedVec<T, MOST> {
    /// No items.
    pub fn new(heap: Global) -> Result<Self, AllocError>
        ensures { IfOk result (λ v. v ≡ []) }
    {
        let items = Vec::with_capacity(heap, MOST)?;
        Ok(BoundedVec { items })
    }

    /// The items, in order.
    pub fn as_slice(&self) -> &[T]
        ensures items { result.now ≡ self.now }
        ensures few { length self.now ≤ MOST }
    {
        &self.items
    }

    pub fn len(&self) -> usize
        ensures len { result ≡ length self.now }
        ensures few { length self.now ≤ MOST }
    {
        self.items.len()
    }

    /// Leaves no items.
    pub fn clear(&mut self)
        ensures { self.new ≡ [] }
    {
        self.items.clear();
    }

    /// Appends an item. A full list stays as it is.
    pub fn push(&mut self, x: T)
        ensures appended { length self.old < MOST → self.new ≡ self.old ++ x ∷ [] }
        ensures full { MOST ≤ length self.old → self.new ≡ self.old }
    {
        if self.items.len() < MOST {
            self.items.push_reserved(x);
        }
    }

    /// Puts x in the place of the item i, and changes nothing past the last.
    pub fn set(&mut self, i: usize, x: T)
        ensures { self.new ≡ replaced self.old i x }
    {
        if let Some(place) = self.items.get_mut(i) {
            *place = x;
        }
    }

    /// Leaves n times x, and nothing else; `MOST` times x, where n is larger.
    pub fn fill(&mut self, n: usize, x: T)
        ensures filled { n ≤ MOST → self.new ≡ replicate n x }
        ensures full { MOST ≤ n → self.new ≡ replicate MOST x }
    {
        self.clear();
        // It succeeds, as there is room.
        let _ = self.items.resize(n.min(MOST), x);
    }

    /// Leaves these items, and nothing else; the first `MOST` of them, where there are more.
    pub fn copy_from(&mut self, items: &[T])
        ensures copied { length items.now ≤ MOST → self.new ≡ items.now }
        ensures full { MOST ≤ length items.now → self.new ≡ take MOST items.now }
    {
        self.clear();
        let count = items.len().min(MOST);
        // It succeeds, as there is room.
        let _ = self.items.extend_from_slice(&items[..count]);
    }

    /// Puts f(0), f(1) and so on in these places. Where the list does not have all of them, it stays as it is.
    pub fn write<F: Fn(usize) -> T>(&mut self, places: Range<usize>, f: F)
        requires callable { (k : ℕ) → k < places.end - places.start → F.pre f k }
        ensures len { length self.new ≡ length self.old }
        ensures written { places.end ≤ length self.old → (k : ℕ) (d : T) → k < places.end - places.start → F.post f k (slice_index_or self.new (places.start + k) d) }
        ensures rest { (k : ℕ) (d : T) → (k < places.start) ⊎ (places.end ≤ k) → slice_index_or self.new k d ≡ slice_index_or self.old k d }
        ensures outside { length self.old < places.end → self.new ≡ self.old }
    {
        if places.start <= places.end && places.end <= self.items.len() {
            for (k, x) in self.items[places].iter_mut().enumerate() {
                *x = f(k);
            }
        }
    }
}

#[cfg(test)]
mod tests {
    use super::BoundedVec;
    use std::test::Fail;

    #[test]
    fn holds_as_many_as_it_may(rt: HostRuntime) -> Result<(), Fail> {
        let mut list: BoundedVec<u32, 3> = BoundedVec::new(rt.alloc())?;
        assert_eq!(rt; list.len(), 0);
        list.push(5);
        list.push(6);
        list.push(7);
        list.push(9);
        list.set(1, 8);
        assert_eq!(rt; list.as_slice(), [5, 8, 7].as_slice());
        list.fill(4, 1);
        list.write(1..3, |k| k as u32 + 10);
        assert_eq!(rt; list.as_slice(), [1, 10, 11].as_slice());
        list.write(2..4, |k| k as u32);
        assert_eq!(rt; list.as_slice(), [1, 10, 11].as_slice());
        list.copy_from(&[1, 2, 3, 4]);
        assert_eq!(rt; list.as_slice(), [1, 2, 3].as_slice());
        list.copy_from(&[4, 5]);
        assert_eq!(rt; list.as_slice(), [4, 5].as_slice());
        list.clear();
        assert_eq!(rt; list.len(), 0);
        Ok(())
    }
}
