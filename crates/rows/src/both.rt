// A keeper of any two keepers: the first's rows, then the second's.
ghost use Rattle.std.specs.Prelude.{◌≡◌, ◌+◌, ◌++◌, false, cond, length};
ghost use Rattle.rows.specs.Keepers.{answered, kept_turned, turn_answer};
ghost use Rattle.rows.specs.Makes.{both, both_check, both_fit, either_cell};
ghost use Rattle.rows.specs.Sounds.{both_sound};

use crate::keeper::Keeper;
use crate::turn::Turn;
use fault::Fault;
use scalar::{Arithmetic, Scalar};

#[derive(Drop)]
pub struct Both<A, B> {
    first: A,
    second: B,
}

// How many rows two keepers have together: each has at most 65,536. Two references, here and below, as in `check`.
fn together<T: Scalar, A: Keeper<T>, B: Keeper<T>>(first: &A, second: &B) -> usize
    ensures { result ≡ length (A.kept first.now).rows + length (B.kept second.now).rows }
{
    first.rows() + second.rows()
}

// Asked at each call: a ghost field that ties a flag in `Both` to its keepers would need T in the public type.
fn fit<T: Scalar, A: Keeper<T>, B: Keeper<T>>(first: &A, second: &B) -> bool
    ensures { result ≡ both_fit (A.kept first.now) (B.kept second.now) }
{
    Both::<A, B>::check::<T>(first, second).is_ok()
}

impl<A, B> Both<A, B> {
    pub fn check<T: Scalar>(first: &A, second: &B) -> Result<(), Fault>
    where
        A: Keeper<T>,
        B: Keeper<T>,
        ensures answer { answered result ≡
            both_check (A.kept first.now) (B.kept second.now) }
    {
        if first.width() != second.width() {
            return Err(Fault::Width);
        }
        if together(first, second) > 65_536 {
            return Err(Fault::Length);
        }
        Ok(())
    }

    // Making refuses nothing, so that it says what is held of every input: where `check` refuses, the keeper has width 0 and no rows.
    pub fn new<T: Scalar>(first: A, second: B) -> Both<A, B>
    where
        A: Keeper<T>,
        B: Keeper<T>,
        ensures kept { both (A.kept result.first) (B.kept result.second) ≡
            both (A.kept first) (B.kept second) }
        ensures first { result.first ≡ first }
        ensures second { result.second ≡ second }
    {
        Both { first, second }
    }

    fn read_either<T: Scalar>(&self, row: usize, column: usize) -> Result<T, Fault>
    where
        A: Keeper<T>,
        B: Keeper<T>,
        ensures { answered result ≡
            either_cell (A.kept self.now.first).rows (B.kept self.now.second).rows row column }
    {
        let count = self.first.rows();
        if row < count {
            self.first.read(row, column)
        } else {
            self.second.read(row - count, column)
        }
    }

    // Two keepers of one width refuse the same turns.
    fn turn_each<T: Scalar>(&mut self, turn: &Turn<T::Real>) -> Result<(), Fault>
    where
        A: Keeper<T>,
        B: Keeper<T>,
        requires { (A.kept self.old.first).width ≡ (B.kept self.old.second).width }
        ensures answer { answered result ≡ turn_answer (A.kept self.old.first) turn.now.column }
        ensures first { A.kept self.new.first ≡
            kept_turned T.ops turn.now (A.kept self.old.first) }
        ensures second { B.kept self.new.second ≡
            kept_turned T.ops turn.now (B.kept self.old.second) }
        ensures first_lent { A.lent self.new.first ≡ A.lent self.old.first }
        ensures second_lent { B.lent self.new.second ≡ B.lent self.old.second }
    {
        self.first.turn(turn)?;
        self.second.turn(turn)
    }

    pub fn first(&self) -> &A
        ensures part { result.now ≡ self.now.first }
    {
        &self.first
    }

    pub fn second(&self) -> &B
        ensures part { result.now ≡ self.now.second }
    {
        &self.second
    }
}

impl<T: Scalar, A: Keeper<T>, B: Keeper<T>> Keeper<T> for Both<A, B> {
    ghost kept = { λ k. both (A.kept k.first) (B.kept k.second) };

    ghost lent = { λ k. A.lent k.first ++ B.lent k.second };

    ghost sound = { λ k. both_sound _ _ (A.sound k.first) (B.sound k.second) };

    fn width(&self) -> usize {
        if fit(&self.first, &self.second) {
            self.first.width()
        } else {
            0
        }
    }

    fn rows(&self) -> usize {
        if fit(&self.first, &self.second) {
            together(&self.first, &self.second)
        } else {
            0
        }
    }

    #[tactic(auto, using(crate::proofs::Held::either_cell_is))]
    fn read(&self, row: usize, column: usize) -> Result<T, Fault> {
        if !fit(&self.first, &self.second) {
            return Err(Fault::Column);
        }
        self.read_either::<T>(row, column)
    }

    fn turn(&mut self, turn: &Turn<T::Real>) -> Result<(), Fault>
        ensures answer { answered result ≡
            turn_answer (both (A.kept self.old.first) (B.kept self.old.second)) turn.now.column }
        ensures rows { both (A.kept self.new.first) (B.kept self.new.second) ≡
            kept_turned T.ops turn.now (both (A.kept self.old.first) (B.kept self.old.second)) }
        ensures first { A.kept self.new.first ≡ cond (both_fit (A.kept self.old.first) (B.kept self.old.second))
            (kept_turned T.ops turn.now (A.kept self.old.first)) (A.kept self.old.first) }
        ensures second { B.kept self.new.second ≡ cond (both_fit (A.kept self.old.first) (B.kept self.old.second))
            (kept_turned T.ops turn.now (B.kept self.old.second)) (B.kept self.old.second) }
        ensures untouched { both_fit (A.kept self.old.first) (B.kept self.old.second) ≡ false → self.new ≡ self.old }
        ensures first_lent { A.lent self.new.first ≡ A.lent self.old.first }
        ensures second_lent { B.lent self.new.second ≡ B.lent self.old.second }
    {
        if fit(&self.first, &self.second) {
            self.turn_each::<T>(turn)
        } else {
            Err(Fault::Column)
        }
    }
}
