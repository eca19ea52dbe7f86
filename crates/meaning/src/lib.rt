// What an answer means for real steps, on any file systems: demand 3, of the bytes that an ask, its C form and pathcheck leave. Rests on all below.
// What a reader must believe stands in specs/Means.antt (`Recipe`, `Means`, `Tells`) and specs/Read.antt (an answer read out of its bytes),
// with the definitions of `gran`, `records`, `ask`, `replay` and `question` that they name. proofs/Headline.antt has the theorems.
// Pure theory: no code of its own but this, which every crate must have.
#![tactic(auto)]

pub fn none() -> usize {
    0
}
