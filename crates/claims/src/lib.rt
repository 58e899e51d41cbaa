// What is promised, in one place: no code, only theorems over the other crates. The statements are in specs/, their proofs, which cite the
// other crates' laws, in proofs/: DemandOne, DemandTwo.., DemandThree, Refusals, and the worked examples. docs/CLAIMS.md says each in plain words.
#![tactic(auto)]
