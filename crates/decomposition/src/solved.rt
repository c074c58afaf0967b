// What a decomposition gives, in a file of its own: the definitions of solutions name it.
use scalar::Scalar;

// The largest size of the table, the passes made, the eigenvalues as they come, and the eigenvectors, which are the columns of a
// matrix that stands column by column; none of them where only the values were asked for.
// No Option: they are what the keeper holds, and a keeper of no rows holds none.
#[derive(Drop)]
pub struct Solved<T: Scalar> {
    pub largest: T::Real,
    pub passes: u32,
    pub values: Vec<T::Real>,
    pub vectors: Vec<T>,
}
