// What a call answers, in a file of its own: the definitions of answers name it.

// `number` is 0 where the call did its work, 255 where memory was wanting, and else the refusal's number. `count` is the number of
// passes, also of those refusals that bear it; `row` and `column` are those of an entry that is refused. What a case does not bear is 0.
#[repr(C)]
#[derive(Clone, Copy)]
pub struct Outcome {
    pub number: u32,
    pub count: u32,
    pub row: usize,
    pub column: usize,
}
