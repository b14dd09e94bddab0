//! Definitions and lemmas on lists, orders, filters and decisions that name nothing of a database. There is no code:
//! the crates above cite `specs` and `proofs`.
#![tactic(auto)]
