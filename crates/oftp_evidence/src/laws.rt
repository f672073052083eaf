//! Theorems about what is found in the octets of a side. The functions do nothing; their contracts are the theorems.

ghost use Rattle.oftp_evidence.specs.Laws.{FoundInCommands, OneHearing};

/// What is found in octets is the same in one piece and in two.
#[tactic(auto, using(crate::proofs::SideLemmas::one_hearing))]
pub fn one_hearing()
    ensures { OneHearing }
{}

/// What is found in octets is what their commands say.
#[tactic(auto, using(crate::proofs::SideLemmas::found_in_commands))]
pub fn found_in_commands()
    ensures { FoundInCommands }
{}
