// The refusals of documents 01 (1 to 13) and 02 (14 to 26), and the number that each has there. Those of document 02 are given from the landing of their request on.
#![tactic(auto)]

ghost use Rattle.std.specs.Prelude.{◌≡◌};
ghost use Rattle.refusals.specs.Number.{number_of};

#[derive(Clone, Copy, PartialEq, Eq, Debug)]
pub enum Refusal {
    TooLong = 1,
    Missing,
    Map,
    Kind,
    Nesting,
    Locals,
    Varargs,
    Trailing,
    Scratch,
    Registers,
    Constants,
    Pool,
    Words,
    Syntax,
    Digits,
    Room,
    Recording,
    Ended,
    Step,
    Carried,
    Head,
    Layout,
    Page,
    Accepted,
    Ratio,
    Rule,
}

// The number that stands for a refusal in what a caller sees.
impl From<Refusal> for u32 {
    ghost from_gives = { λ k n. number_of k ≡ n };

    fn from(k: Refusal) -> u32 {
        k as u32
    }
}
