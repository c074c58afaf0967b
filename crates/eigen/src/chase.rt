// The chase of a block: rotation after rotation moves the bulge down until it leaves the block.
ghost use Rattle.std.specs.Prelude.{◌≡◌, ◌<◌, ◌≤◌, length, slice_set};
ghost use Rattle.rows.specs.Turns.{turn_of};
ghost use Rattle.rows.specs.Keepers.{kept_turned};
ghost use Rattle.rows.specs.declared.direction.Direction.TheVariants.{Back};
ghost use Rattle.eigen.specs.Turnings.{kept_all};
ghost use Rattle.eigen.specs.Forms.{SameBuffers};
ghost use Rattle.eigen.specs.Chases.{rotated_corner, corner_at, corner_values, norm_put, bulge_offs, bulge_next};
ghost use Rattle.eigen.specs.Chases.{step_values, step_offs, first_bulge, chased};

use crate::block::Block;
use crate::eigenvalues::{Vector2, wilkinson_shift};
use crate::form::Tridiagonal;
use crate::givens::{Normed, Rotation, cancel_y};
use rows::{Direction, Keeper};
use scalar::{Arithmetic, RealScalar, Scalar};

// The symmetric block (mii mij)(mij mjj).
#[derive(Clone, Copy)]
pub(crate) struct Corner<R: Copy> {
    pub(crate) mii: R,
    pub(crate) mij: R,
    pub(crate) mjj: R,
}

impl<R: RealScalar> Corner<R> {
    // The block under a rotation, on both sides.
    fn rotated(self, rotation: Rotation<R>) -> Corner<R>
        ensures corner { result ≡ rotated_corner R.ops R.real rotation self }
    {
        let Corner { mii, mij, mjj } = self;
        let Rotation { c, s } = rotation;
        let cc = c.mul(c);
        let ss = s.mul(s);
        let cs = c.mul(s);
        let b = cs.mul(R::TWO).mul(mij);
        Corner {
            mii: cc.mul(mii).add(ss.mul(mjj)).sub(b),
            mij: cs.mul(mii.sub(mjj)).add(mij.mul(cc.sub(ss))),
            mjj: ss.mul(mii).add(cc.mul(mjj)).add(b),
        }
    }
}

impl<R: RealScalar> Tridiagonal<'_, R> {
    // After the first rotation of a chase, each rotation's norm is written before its pair of entries.
    fn put_norm(&mut self, start: usize, i: usize, norm: R)
        requires { i < length self.old.offs.now }
        ensures values { self.new.values.now ≡ self.old.values.now }
        ensures offs { self.new.offs.now ≡ norm_put R.ops R.real start i norm self.old.offs.now }
        ensures same { SameBuffers self.old self.new }
    {
        if start < i {
            self.offs[i - 1] = norm;
        }
    }

    // The block of the entries i and i + 1.
    pub(crate) fn corner_at(&self, i: usize) -> Corner<R>
        requires { i < length self.now.offs.now }
        ensures corner { result ≡ corner_at R.ops R.real self.now.values.now self.now.offs.now i }
    {
        Corner {
            mii: self.values[i],
            mij: self.offs[i],
            mjj: self.values[i + 1],
        }
    }

    fn rotate_corner(&mut self, i: usize, rotation: Rotation<R>)
        requires { i < length self.old.offs.now }
        ensures values { self.new.values.now ≡ corner_values R.ops R.real
            (rotated_corner R.ops R.real rotation
            (corner_at R.ops R.real self.old.values.now self.old.offs.now i)) i self.old.values.now }
        ensures offs { self.new.offs.now ≡ slice_set self.old.offs.now i
            (rotated_corner R.ops R.real rotation
            (corner_at R.ops R.real self.old.values.now self.old.offs.now i)).mij }
        ensures same { SameBuffers self.old self.new }
    {
        let new = self.corner_at(i).rotated(rotation);
        self.values[i] = new.mii;
        self.values[i + 1] = new.mjj;
        self.offs[i] = new.mij;
    }

    // Before the last rotation of a block, what is next to be cancelled.
    fn next_bulge(
        &mut self,
        i: usize,
        end: usize,
        rotation: Rotation<R>,
        old: Vector2<R>,
    ) -> Vector2<R>
        requires i_in_bounds { i < length self.old.offs.now }
        requires end_in_bounds { end ≤ length self.old.offs.now }
        ensures bulge { result ≡ bulge_next R.ops R.real end i rotation self.old.offs.now old }
        ensures values { self.new.values.now ≡ self.old.values.now }
        ensures offs { self.new.offs.now ≡ bulge_offs R.ops R.real end i rotation self.old.offs.now }
        ensures same { SameBuffers self.old self.new }
    {
        if i + 1 < end {
            let x = self.offs[i];
            let next = self.offs[i + 1];
            self.offs[i + 1] = next.mul(rotation.c);
            Vector2 {
                x,
                y: rotation.s.neg().mul(next),
            }
        } else {
            old
        }
    }

    // One rotation's part in the values and the off-diagonal entries; answers the next bulge.
    fn step(&mut self, block: Block, i: usize, found: Normed<R>, old: Vector2<R>) -> Vector2<R>
        requires i_lt_end { i < block.end }
        requires end_in_bounds { block.end ≤ length self.old.offs.now }
        ensures bulge { result ≡ bulge_next R.ops R.real block.end i found.rotation
            (step_offs R.ops R.real block.start i found self.old.values.now self.old.offs.now) old }
        ensures values { self.new.values.now ≡
            step_values R.ops R.real block.start i found self.old.values.now self.old.offs.now }
        ensures offs { self.new.offs.now ≡ bulge_offs R.ops R.real block.end i found.rotation
            (step_offs R.ops R.real block.start i found self.old.values.now self.old.offs.now) }
        ensures same { SameBuffers self.old self.new }
    {
        self.put_norm(block.start, i, found.norm);
        self.rotate_corner(i, found.rotation);
        self.next_bulge(i, block.end, found.rotation, old)
    }

    fn first_bulge(&self, block: Block) -> Vector2<R>
        requires { block.end ≤ length self.now.offs.now }
        ensures bulge { result ≡ first_bulge R.ops R.real block.start block.end
            self.now.values.now self.now.offs.now }
    {
        let Block { start, end } = block;
        let shift = wilkinson_shift(self.corner_at(end - 1));
        Vector2 {
            x: self.values[start].sub(shift),
            y: self.offs[start],
        }
    }
}

// The turn that goes with a rotation of the columns i and i + 1.
fn turn_back<T: Scalar, K: Keeper<T>>(keeper: &mut K, i: usize, rotation: Rotation<T::Real>)
    ensures rows { K.kept keeper.new ≡
        kept_turned T.ops (turn_of i rotation.c rotation.s Back) (K.kept keeper.old) }
    ensures lent { K.lent keeper.new ≡ K.lent keeper.old }
{
    // Nothing is lost: a refused turn turns nothing, as `kept_turned` says.
    let _ = keeper.turn(&rotation.turn(i, Direction::Back));
}

// The chase of the block, with one back turn of the keeper's rows for each rotation.
pub(crate) fn chase<T: Scalar, K: Keeper<T>>(
    form: &mut Tridiagonal<'_, T::Real>,
    keeper: &mut K,
    block: Block,
)
    requires end_in_bounds { block.end ≤ length form.old.offs.now }
    requires end_bound { block.end < (K.kept keeper.old).width }
    ensures values { form.new.values.now ≡ (chased T.Real.ops T.Real.real block.start block.end
        form.old.values.now form.old.offs.now).values }
    ensures offs { form.new.offs.now ≡ (chased T.Real.ops T.Real.real block.start block.end
        form.old.values.now form.old.offs.now).offs }
    ensures same { SameBuffers form.old form.new }
    ensures rows { K.kept keeper.new ≡ kept_all T.ops
        (chased T.Real.ops T.Real.real block.start block.end
        form.old.values.now form.old.offs.now).turns
        (K.kept keeper.old) }
    ensures lent { K.lent keeper.new ≡ K.lent keeper.old }
{
    let mut bulge = form.first_bulge(block);
    // A labelled break, a form that docs/DECISIONS.md lists, out of the rotations of the columns i and i + 1.
    'chase: for i in block.start..block.end {
        let Some(found) = cancel_y(bulge) else {
            break 'chase;
        };
        bulge = form.step(block, i, found, bulge);
        turn_back::<T, K>(keeper, i, found.rotation);
    }
}
