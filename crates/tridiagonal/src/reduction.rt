// The token of a reduction.
ghost use Rattle.std.specs.Prelude.{◌≡◌, ◌<◌, ◌≤◌};

// A table's side, and the largest size that it was divided by. Only `reduce` makes one, and it cannot be copied.
#[derive(Drop)]
pub struct Reduction<R> {
    pub(crate) side: usize,
    pub(crate) largest: R,
    ghost some: { 0 < side },
    ghost few: { side ≤ 512 },
}

impl<R: Copy> Reduction<R> {
    pub fn side(&self) -> usize
        ensures value { result ≡ self.now.side }
        ensures some { 0 < result }
        ensures few { result ≤ 512 }
    {
        self.side
    }

    pub fn largest(&self) -> R
        ensures value { result ≡ self.now.largest }
    {
        self.largest
    }
}
