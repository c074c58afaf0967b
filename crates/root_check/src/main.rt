// Compares the root with the library's, bit by bit: on a table of hard cases, and on a run of seeded words.
#![tactic(auto)]

mod table;

ghost use Rattle.std.specs.Prelude.{◌≡◌, ◌≤◌};
ghost use Rattle.std.specs.Float.{sqrt};
ghost use Rattle.root_check.specs.Compare.{is_unlike, unlike_in, unlike_around, unlike_from, shuffled};

use root::{Binary, root};
use std::io;

// A format whose root the library has too.
trait Compared: Binary {
    fn library_root(self) -> Self
        ensures { Self.datum result ≡ sqrt Self.format (Self.datum self) };
}

// An impl for each format: its `sqrt` belongs to the type and to no trait.
impl Compared for f32 {
    fn library_root(self) -> f32 {
        self.sqrt()
    }
}

impl Compared for f64 {
    fn library_root(self) -> f64 {
        self.sqrt()
    }
}

fn is_unlike<F: Compared>(v: F) -> bool
    ensures { result ≡ is_unlike F.format (F.datum v) }
{
    root(v).to_pattern() != v.library_root().to_pattern()
}

fn unlike_in<F: Compared>(patterns: &[u64]) -> usize
    ensures { result ≡ unlike_in F.format patterns.now }
{
    patterns
        .iter()
        .filter(|b| is_unlike(F::from_pattern(**b)))
        .count()
}

fn unlike_around<F: Compared>(x: u64) -> usize
    ensures count { result ≡ unlike_around F.format x }
    ensures few { result ≤ 3 }
{
    unlike_in::<F>(&[x, x % F::SIGN, x % F::HIDDEN])
}

#[tactic(auto, unfolding(crate::specs::Compare::shuffled))]
fn shuffle(x: u64) -> u64
    ensures { result ≡ shuffled x }
{
    let a = x ^ (x << 13);
    let b = a ^ (a >> 7);
    b ^ (b << 17)
}

fn unlike_from<F: Compared>(words: u32, seed: u64) -> usize
    ensures { result ≡ unlike_from F.format words seed }
{
    let mut x = seed;
    let mut n = 0;
    // By hand: nothing bounds the `sum` of a chain behind `take`, and the word is carried along.
    for _ in 0..words {
        n += unlike_around::<F>(x);
        x = shuffle(x);
    }
    n
}

fn compare<F: Compared>(rt: HostRuntime, format: &str, hard_cases: &[u64]) -> io::Result<()> {
    let words = 100_000;
    let hard = unlike_in::<F>(hard_cases);
    let seeded = unlike_from::<F>(words, 0x9E37_79B9_7F4A_7C15);
    println!(rt;
        "{format}: {} hard cases compared, {hard} different",
        hard_cases.len()
    )?;
    println!(rt;
        "{format}: {} seeded numbers compared, {seeded} different",
        3 * words
    )
}

fn main(rt: HostRuntime) -> io::Result<()> {
    compare::<f64>(rt, "binary64", &table::DOUBLES)?;
    compare::<f32>(rt, "binary32", &table::SINGLES)
}
