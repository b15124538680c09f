// Demand 3: definitions (specs/) and the theorem (proofs/) about what planner::plan_job, questions::owner_of and questions::neighbour_of answer.
#![tactic(auto)]
