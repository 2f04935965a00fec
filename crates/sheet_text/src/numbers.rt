// A list of at most 64 numbers, as many as a card can have cells.
ghost use Rattle.std.specs.Prelude.{◌≡◌, ◌≤◌, take};

use arrayvec::ArrayVec;

// The first so many of a table. No `ArrayVec`, in which they are read: a request is copied, and an `ArrayVec` is not.
#[derive(Clone, Copy)]
pub struct Numbers {
    items: [u8; 64],
    count: usize,
    ghost few: { count ≤ 64 },
}

impl Numbers {
    // The numbers of a list.
    pub(super) fn of(list: &ArrayVec<u8, 64>) -> Numbers
        ensures { take result.count result.items ≡ list.now.items }
    {
        let mut items = [0; 64];
        items[..list.len()].copy_from_slice(list.as_slice());
        Numbers {
            items,
            count: list.len(),
        }
    }

    // The numbers.
    pub fn as_slice(&self) -> &[u8]
        ensures { result.now ≡ take self.now.count self.now.items }
    {
        &self.items[0..self.count]
    }
}
