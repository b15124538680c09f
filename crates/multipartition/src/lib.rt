// Generalized multipartitioning: definitions (specs/) and theorems (proofs/). No code runs here.
#![tactic(auto)]
