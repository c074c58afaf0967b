// What a reduction leaves, in a file of its own: the definitions of forms name it.
use scalar::Scalar;
use tridiagonal::Reduction;

#[derive(Drop)]
pub(crate) struct Form<T: Scalar> {
    pub(crate) reduction: Reduction<T::Real>,
    pub(crate) table: Vec<T>,
    pub(crate) values: Vec<T::Real>,
    pub(crate) offs: Vec<T::Real>,
    pub(crate) signs: Vec<T>,
}
