// A list in a place of fixed size, since no crate here has a heap.
ghost use Rattle.std.specs.Prelude.{◌≡◌, ◌+◌, ◌<◌, ◌≤◌, [], ◌∷◌, ◌++◌, length, take};

use std::marker::Model;

#[derive(Drop)]
pub struct FixedList<T: Copy, const N: usize> {
    items: [T; N],
    len: usize,
}

impl<T: Copy, const N: usize> Model for FixedList<T, N> {
    ghost use Rattle.std.specs.Prelude.{List, length, take, ◌≤◌};

    ghost Value = { List T };

    ghost view = { λ l. take l.len l.items };

    ghost invariant = { λ l. l.len ≤ length l.items };
}

impl<T: Copy, const N: usize> FixedList<T, N> {
    // An empty list. The element that is given fills the places that have none yet.
    pub fn new(fill: T) -> Self
        ensures { result ≡ [] }
    {
        FixedList {
            items: [fill; N],
            len: 0,
        }
    }

    pub fn len(&self) -> usize
        ensures value { result ≡ length self.now }
        ensures few { result ≤ N }
    {
        self.len
    }

    pub fn as_slice(&self) -> &[T]
        ensures { result.now ≡ self.now }
    {
        &self.items[..self.len]
    }

    pub(crate) fn clear(&mut self)
        ensures { self.new ≡ [] }
    {
        self.len = 0;
    }

    // For a caller that knows that there is room.
    pub(crate) fn push(&mut self, item: T)
        requires { length self.old < N }
        ensures { self.new ≡ self.old ++ item ∷ [] }
    {
        self.items[self.len] = item;
        self.len += 1;
    }

    // The same, for several.
    pub(crate) fn extend(&mut self, items: &[T])
        requires { length self.old + length items.now ≤ N }
        ensures { self.new ≡ self.old ++ items.now }
    {
        let end = self.len + items.len();
        let places = &mut self.items[..];
        places[self.len..end].copy_from_slice(items);
        self.len = end;
    }

    // Puts items behind those that are there, as far as there is room.
    pub fn fill_up(&mut self, items: &[T])
        ensures { self.new ≡ take N (self.old ++ items.now) }
    {
        let n = usize::min(N - self.len, items.len());
        self.extend(&items[..n]);
    }
}
