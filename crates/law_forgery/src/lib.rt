//! What `forged` says: two theorems on every run, and none about a run that is made for them.
//!
//! Keys of nodes and modules show in nothing but tags (`keys_unseen`). The first `forged` of a run
//! is a whole tag under the right key, which nobody who holds the key made (`forged_unmade`). Read
//! specs/Lib.antt first.
#![tactic(auto)]

pub mod laws;
