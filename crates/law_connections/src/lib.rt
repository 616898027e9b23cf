//! What the keys of connections show in a run: nothing but tags, up to the first `forged`.
//!
//! Two settings whose connections have keys of their own show the same (`links_unseen`), and there
//! are such settings (`unlinks_all`). Read specs/Lib.antt first.
#![tactic(auto)]

pub mod laws;
