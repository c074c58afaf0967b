// Complex numbers as C lays them out, in a file of its own: definitions name them. C knows no type with parameters, so
// `scalar::Complex` does not cross.

// over binary64
#[repr(C)]
#[derive(Clone, Copy)]
pub struct Complex64 {
    pub re: f64,
    pub im: f64,
}

// over binary32
#[repr(C)]
#[derive(Clone, Copy)]
pub struct Complex32 {
    pub re: f32,
    pub im: f32,
}
