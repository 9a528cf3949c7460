// A buffer that is written from the front.
ghost use Rattle.std.specs.Prelude.{◌≡◌, [], ◌∷◌};
ghost use Rattle.store.specs.Pages.{page};
ghost use Rattle.store.specs.Written.{page_of, Wrote};

// A buffer, and how many of its items are written. What lies beyond them stays as it was.
#[derive(Drop)]
pub struct Page<'a, T> {
    buffer: &'a mut [T],
    written: usize,
}

impl<'a, T: Copy> Page<'a, T> {
    // So many items are written already.
    pub fn resumed(buffer: &'a mut [T], written: usize) -> Page<'a, T>
        ensures same_buffer { result.buffer.ghost_name ≡ buffer.entry.ghost_name }
        ensures so_far { page_of result ≡ page buffer.old written }
    {
        Page { buffer, written }
    }

    // Nothing is written yet.
    pub fn new(buffer: &'a mut [T]) -> Page<'a, T>
        ensures same_buffer { result.buffer.ghost_name ≡ buffer.entry.ghost_name }
        ensures empty { page_of result ≡ page buffer.old 0 }
    {
        Page { buffer, written: 0 }
    }

    // Writes one more item, if it fits.
    pub fn write(&mut self, item: T)
        ensures { Wrote (item ∷ []) self.old self.new }
    {
        // An index, since the proof of a write through `get_mut` into a borrowed buffer does not close.
        if self.written < self.buffer.len() {
            self.buffer[self.written] = item;
            self.written += 1;
        }
    }

    // How many items are written.
    pub fn written(&self) -> usize
        ensures { result ≡ self.now.written }
    {
        self.written
    }
}
