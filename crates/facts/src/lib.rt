//! Lemmas on lists, tests and places that several crates need, over the standard library alone.
//!
//! The crate has no code. `proofs/Counting.antt` speaks of how many elements of a list pass a test, and of
//! what is found, `proofs/Tests.antt` of tests, numbers and options, `proofs/Lists.antt` of what stands in a
//! list, `proofs/Places.antt` of elements at places. Each file is offered to every crate above.
#![tactic(auto)]
