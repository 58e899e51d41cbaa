// Compiling a task into positive normal form: the definitions in specs/, and in proofs/ that source and compiled task run alike. The code that builds it
// is in the crates above this one.
#![tactic(auto)]
