// The search for the block of a tridiagonal form that the next pass works on.
ghost use Rattle.std.specs.Prelude.{◌≡◌, ◌<◌, ◌≤◌, length};
ghost use Rattle.eigen.specs.Blocks.{bound, above, within, negligible, end_from, start_from, cut_at, block_in, block_from, offs_from};
ghost use Rattle.eigen.specs.Forms.{SameBuffers};

use crate::block::Block;
use crate::form::Tridiagonal;
use scalar::{Arithmetic, RealScalar};

impl<R: RealScalar> Tridiagonal<'_, R> {
    // What the off-diagonal entry m is compared with.
    fn bound(&self, m: usize, tolerance: R) -> R
        requires { m < length self.now.offs.now }
        ensures bound { result ≡ bound R.ops R.real tolerance self.now.values.now m }
    {
        tolerance.mul(self.values[m + 1].abs().add(self.values[m].abs()))
    }

    fn is_above(&self, m: usize, tolerance: R) -> bool
        requires { m < length self.now.offs.now }
        ensures answer { result ≡
            above R.ops R.real tolerance self.now.values.now self.now.offs.now m }
    {
        self.bound(m, tolerance).lt(self.offs[m].abs())
    }

    pub(crate) fn is_within(&self, m: usize, tolerance: R) -> bool
        requires { m < length self.now.offs.now }
        ensures answer { result ≡
            within R.ops R.real tolerance self.now.values.now self.now.offs.now m }
    {
        self.offs[m].abs().le(self.bound(m, tolerance))
    }

    fn is_negligible(&self, m: usize, tolerance: R) -> bool
        requires { m < length self.now.offs.now }
        ensures answer { result ≡
            negligible R.ops R.real tolerance self.now.values.now self.now.offs.now m }
    {
        self.offs[m].is_zero() || self.is_within(m, tolerance)
    }

    // First scan: the end falls until the entry before it is above its bound.
    fn end_from(&self, end: usize, tolerance: R) -> usize
        requires { end ≤ length self.now.offs.now }
        ensures scan { result ≡
            end_from R.ops R.real tolerance self.now.values.now self.now.offs.now end }
        ensures below { result ≤ end }
    {
        (0..end)
            .rfind(|m| self.is_above(*m, tolerance))
            .map_or(0, |m| m + 1)
    }

    // Second scan: the start falls until the entry before it is negligible.
    fn start_from(&self, start: usize, tolerance: R) -> usize
        requires { start ≤ length self.now.offs.now }
        ensures scan { result ≡
            start_from R.ops R.real tolerance self.now.values.now self.now.offs.now start }
        ensures below { result ≤ start }
    {
        (0..start)
            .rfind(|m| self.is_negligible(*m, tolerance))
            .map_or(0, |m| m + 1)
    }

    // The entry before a block's start is set to zero.
    fn cut_at(&mut self, start: usize)
        requires { start ≤ length self.old.offs.now }
        ensures values { self.new.values.now ≡ self.old.values.now }
        ensures offs { self.new.offs.now ≡ cut_at R.ops start self.old.offs.now }
        ensures same { SameBuffers self.old self.new }
    {
        if start > 0 {
            self.offs[start - 1] = R::zero();
        }
    }

    // The block to work on, at or below `end`, or none where what is left is single. The entry before it is set to zero.
    pub(crate) fn delimit_subproblem(&mut self, end: usize, tolerance: R) -> Option<Block>
        requires { end ≤ length self.old.offs.now }
        ensures block { block_in result ≡
            block_from R.ops R.real tolerance self.old.values.now self.old.offs.now end }
        ensures values { self.new.values.now ≡ self.old.values.now }
        ensures offs { self.new.offs.now ≡
            offs_from R.ops R.real tolerance self.old.values.now self.old.offs.now end }
        ensures same { SameBuffers self.old self.new }
        ensures below { (block_in result).end ≤ end }
    {
        let last = self.end_from(end, tolerance);
        let above = last.checked_sub(1)?;
        let start = self.start_from(above, tolerance);
        self.cut_at(start);
        Some(Block { start, end: last })
    }
}
