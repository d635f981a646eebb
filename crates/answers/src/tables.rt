// A list of at most N values in a table, by value: no heap.
ghost use Rattle.std.specs.Prelude.{◌≡◌, ⊤};
ghost use Rattle.answers.specs.Tables.{empty, with_item, with_any, with_if};

use std::alloc::AllocError;

// The first `len` places hold the values, the others none.
pub struct Table<T, const N: usize> {
    pub items: [Option<T>; N],
    pub len: usize,
}

impl<T: Copy, const N: usize> Clone for Table<T, N> {
    ghost is_clone = { λ x y. y ≡ x };

    ghost is_infallible = { λ _. ⊤ };

    fn clone(&self) -> Result<Self, AllocError> {
        Ok(*self)
    }
}

impl<T: Copy, const N: usize> Copy for Table<T, N> {}

impl<T: Copy, const N: usize> Table<T, N> {
    pub fn none() -> Self
        ensures { result ≡ empty }
    {
        Table {
            items: [None; N],
            len: 0,
        }
    }

    // One value more, put where the table stands: a large one is not copied. A full table stays as it is.
    pub fn add(&mut self, x: T)
        ensures { self.new ≡ with_item self.old x }
    {
        if self.len < N {
            self.items[self.len] = Some(x);
            self.len += 1;
        }
    }

    // The same of a table by value.
    pub fn with(self, x: T) -> Self
        ensures { result ≡ with_item self x }
    {
        let mut next = self;
        next.add(x);
        next
    }

    // The same where there is a value.
    pub fn with_any(self, x: Option<T>) -> Self
        ensures { result ≡ with_any self x }
    {
        match x {
            Some(x) => self.with(x),
            None => self,
        }
    }

    // The same where a test passed.
    pub fn with_if(self, test: bool, x: T) -> Self
        ensures { result ≡ with_if test self x }
    {
        if test { self.with(x) } else { self }
    }
}
