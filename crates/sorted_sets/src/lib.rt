//! Lists that stand for sets: the definitions and lemmas on rising lists that the crates above share.
//!
//! A set is written as any list under `has`, and as the one rising list of its elements, `sorted`. The order
//! is a comparison R, given each time. `Merging` has lists that are made of two lists, each in its order, and what that says of counts and of
//! members. Beside them stand small facts on tests (`Bools`, `Counting`). There is no code here: the crate is its `specs/` and `proofs/`.
#![tactic(auto)]
