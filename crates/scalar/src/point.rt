// The type of complex numbers, in a file of its own: the definitions of what its operations mean name it.

// A point of an outline: `re` across and `im` along, its real and imaginary parts.
#[derive(Clone, Copy)]
pub struct Complex<R: Copy> {
    pub re: R,
    pub im: R,
}
