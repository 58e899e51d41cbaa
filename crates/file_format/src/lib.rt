// The format of task files: the bytes of a task, and reading them back. Definitions in specs/, laws in proofs/; no code.
#![tactic(auto)]
