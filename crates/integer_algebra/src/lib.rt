//! The algebra of whole numbers that exact geometry rests on: ring identities, the order of products, and floors.
//!
//! It has no code. `proofs/Ring.antt` proves an identity of sums and products by computing a normal form; `proofs/Order.antt`
//! compares products, and `proofs/Floors.antt` rounds down. The proofs of the crates above cite them.
#![tactic(auto)]
