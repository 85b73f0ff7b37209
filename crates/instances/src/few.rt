// A few things of a kind, kept in an array that has room for more.
ghost use Rattle.std.specs.Prelude.{◌≡◌, ◌<◌, ◌≤◌, [], ◌∷◌, ◌++◌, length};

// The first `count` items of the array.
#[derive(Drop)]
pub(crate) struct Few<T, const N: usize> {
    count: u8,
    items: [T; N],
    ghost fits: { count ≤ N },
    ghost small: { N ≤ 255 },
}

impl<T: Copy, const N: usize> Few<T, N> {
    ghost use Rattle.instances.specs.inner.Few.{items_in};

    // None yet: the array is filled with `blank`.
    pub(crate) fn none(blank: T) -> Few<T, N>
        requires { N ≤ 255 }
        ensures { items_in result ≡ [] }
    {
        Few {
            count: 0,
            items: [blank; N],
        }
    }

    pub(crate) fn push(&mut self, item: T)
        requires { length (items_in self.old) < N }
        ensures { items_in self.new ≡ items_in self.old ++ item ∷ [] }
    {
        self.items[self.count as usize] = item;
        self.count += 1;
    }

    pub(crate) fn len(&self) -> usize
        ensures { result ≡ length (items_in self.now) }
    {
        self.count as usize
    }

    pub(crate) fn as_slice(&self) -> &[T]
        ensures { result.now ≡ items_in self.now }
    {
        &self.items[..self.count as usize]
    }
}
