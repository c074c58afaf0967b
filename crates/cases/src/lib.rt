// The proved cases, as one table under one theorem.
#![tactic(auto)]

ghost use Rattle.std.specs.Prelude.{◌≡◌, length};
ghost use Rattle.cases.specs.Cases.{Hold, cases};

// A function of its own: a wrong number is refused here, and not in the proof of the cases.
fn number_of_cases() -> u8
    ensures count { result ≡ length cases }
{
    11
}

// Every case of the table holds. Answers how many there are.
pub fn proved_cases() -> u8
    ensures cases { Hold cases }
    ensures count { result ≡ length cases }
{
    number_of_cases()
}
