// A few values in a table of fixed size, for what may take no memory of its own.
#![tactic(auto)]

ghost use Rattle.std.specs.Prelude.{◌≡◌, ℕ, ◌+◌, ◌≤◌, ◌<◌, ◌↔◌, [], ◌∷◌, ◌++◌, length, slice_index_or, slice_set, Ok, IsOk, OnOk, OnErr};

use std::alloc::AllocError;

// There is no room for one more value.
#[derive(Clone, Copy, Debug, PartialEq, Eq)]
pub struct Full;

// At most N values, in order. Unlike the vector of the crate `arrayvec` it can be copied, and its values need no default: the places
// behind them hold whatever value it was made with.
#[derive(Copy)]
pub struct Few<T, const N: usize> {
    places: [T; N],
    len: usize,
    ghost all: { length places ≡ N },
    ghost few: { len ≤ N },
}

// By hand, since a derived `Clone` of a generic struct with a ghost field is refused. Each place is cloned, as by a derive.
impl<T: Clone, const N: usize> Clone for Few<T, N> {
    ghost use Rattle.std.specs.Array.{AllZipBelow};
    ghost use Rattle.std.specs.Array.Iter.{IntoIterFitsInMemory};

    ghost is_clone = { λ x y. (y.len ≡ x.len) × AllZipBelow T.is_clone x.places y.places N × (((a b : T) → T.is_clone a b → b ≡ a) → y ≡ x) };

    ghost is_infallible = { λ x. IntoIterFitsInMemory T.row N.row × ((i : ℕ) (d : T) → i < N → T.is_infallible (slice_index_or x.places i d)) };

    fn clone(&self) -> Result<Few<T, N>, AllocError> {
        Ok(Few {
            places: self.places.clone()?,
            len: self.len,
        })
    }
}

impl<T: Copy, const N: usize> Few<T, N> {
    ghost use Rattle.few.specs.Values.{items};

    // No value yet; the filler is none of them.
    pub fn none(filler: T) -> Few<T, N>
        ensures { items result ≡ [] }
    {
        Few {
            places: [filler; N],
            len: 0,
        }
    }

    // One value.
    pub fn one(value: T) -> Few<T, N>
        requires { 1 ≤ N }
        ensures { items result ≡ value ∷ [] }
    {
        let mut few = Few::none(value);
        few.push(value);
        few
    }

    // An equal table, whatever `clone` of the values says of them. It never fails: the answer has the form of `clone`.
    pub fn copied(&self) -> Result<Few<T, N>, AllocError>
        ensures { result ≡ Ok self.now }
    {
        Ok(*self)
    }

    pub fn len(&self) -> usize
        ensures value { result ≡ length (items self.now) }
        ensures few { result ≤ N }
    {
        self.as_slice().len()
    }

    pub fn as_slice(&self) -> &[T]
        ensures value { result.now ≡ items self.now }
        ensures few { length result.now ≤ N }
    {
        &self.places[..self.len]
    }

    // Adds a value that has room.
    pub fn push(&mut self, value: T)
        requires { length (items self.old) < N }
        ensures { items self.new ≡ items self.old ++ value ∷ [] }
    {
        self.places[self.len] = value;
        self.len += 1;
    }

    // Adds a value, if it has room.
    pub fn try_push(&mut self, value: T) -> Result<(), Full>
        ensures told { IsOk result ↔ (length (items self.old) < N) }
        ensures ok { OnOk result (items self.new ≡ items self.old ++ value ∷ []) }
        ensures err { OnErr result (self.new ≡ self.old) }
    {
        if self.len >= N {
            return Err(Full);
        }
        self.push(value);
        Ok(())
    }

    // Adds values that have room.
    pub fn extend_from_slice(&mut self, values: &[T])
        requires { length (items self.old) + length values.now ≤ N }
        ensures { items self.new ≡ items self.old ++ values.now }
    {
        let start = self.len;
        self.len += values.len();
        let filled = &mut self.places[..self.len];
        filled[start..].copy_from_slice(values);
    }

    // Puts a value in the place of the one at k.
    pub fn set(&mut self, k: usize, value: T)
        requires { k < length (items self.old) }
        ensures { items self.new ≡ slice_set (items self.old) k value }
    {
        let values = &mut self.places[..self.len];
        values[k] = value;
    }

    // Forgets all values.
    pub fn clear(&mut self)
        ensures { items self.new ≡ [] }
    {
        self.len = 0;
    }
}
