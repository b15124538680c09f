// Number theory for planners.
#![tactic(auto)]

mod entries; // entries.rt: the table of least factors
pub mod euclid; // euclid.rt: the greatest common divisor
pub mod factors; // factors.rt: least factors and divisors of the numbers up to 4096
