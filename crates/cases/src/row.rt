// A row of words with room for N, of which some are used.
ghost use Rattle.std.specs.Prelude.{◌≤◌};

#[derive(Drop)]
pub(crate) struct Row<T, const N: usize> {
    words: [T; N],
    used: usize,
    ghost within: { used ≤ N },
}

impl<T: Copy, const N: usize> Row<T, N> {
    // A row of this length, or as long as there is room: each word is x.
    pub(crate) fn new(x: T, length: usize) -> Row<T, N> {
        Row {
            words: [x; N],
            used: length.min(N),
        }
    }

    // The used words, to be read.
    pub(crate) fn shown(&self) -> &[T] {
        &self.words[..self.used]
    }

    // The used words, to be written.
    pub(crate) fn lent(&mut self) -> &mut [T] {
        let used = self.used;
        let words = &mut self.words;
        let row = &mut words[..];
        &mut row[..used]
    }

    // The word at place i becomes x; None where there is no such place.
    pub(crate) fn set(&mut self, i: usize, x: T) -> Option<()> {
        *self.lent().get_mut(i)? = x;
        Some(())
    }

    // The length becomes this, or as long as there is room; the words stay.
    pub(crate) fn resize(&mut self, length: usize) {
        self.used = length.min(N);
    }

    // Is there room for one word more?
    pub(crate) fn has_room(&self) -> bool {
        self.used < N
    }

    // One word more, if there is room.
    pub(crate) fn push(&mut self, x: T) {
        if self.used < N {
            self.words[self.used] = x;
            self.used += 1;
        }
    }
}
