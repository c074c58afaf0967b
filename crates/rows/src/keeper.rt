// The trait of row keepers: whoever holds rows of a width, and turns them.
ghost use Rattle.std.specs.Prelude.{◌≡◌, ℕ, List, length};
ghost use Rattle.rows.specs.Keepers.{Kept, Sound, answered, cell_at, kept_turned, turn_answer};

use crate::turn::Turn;
use fault::Fault;
use scalar::Scalar;

pub trait Keeper<T: Scalar> {
    ghost kept: { Self → Kept T };

    // The slices lent to it, by their names. None is exchanged for another: what the keeper's holds last, the one lent holds afterwards.
    ghost lent: { Self → List ℕ };

    ghost sound: { (k : Self) → Sound (kept k) };

    fn width(&self) -> usize
        ensures width { result ≡ (kept self.now).width };

    fn rows(&self) -> usize
        ensures count { result ≡ length (kept self.now).rows };

    // Row and column stand apart: a struct of the two would be made for each read and taken apart in it.
    fn read(&self, row: usize, column: usize) -> Result<T, Fault>
        ensures answer { answered result ≡ cell_at (kept self.now).rows row column };

    // Turns two columns of every row.
    fn turn(&mut self, turn: &Turn<T::Real>) -> Result<(), Fault>
        ensures answer { answered result ≡ turn_answer (kept self.old) turn.now.column }
        ensures rows { kept self.new ≡ kept_turned T.ops turn.now (kept self.old) }
        ensures lent { lent self.new ≡ lent self.old };
}
