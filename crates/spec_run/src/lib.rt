//! The run of a deployment, as definitions: what a schedule's lines do to nodes, network, deployer
//! and ledger, and which items they show. There is no code of a node or of a world here.
//!
//! A run is a fold from the lines of a schedule to items and a world (`specs/Run.antt`), over a
//! setting: the application, where its modules, keys and devices are, and the texts of its images.
//! Up to the first item that is forged it is a legal run of the source's handlers
//! (`laws::runs_legal`), for every tag function, every image that realizes its module and every
//! schedule.
//!
//! `specs/Setting.antt` has what a run is given, `State.antt` a world, `Acts.antt` the acts that
//! lines are made of, `Observation.antt` the items of a step, `Ledger.antt` who made which header,
//! `Deployer.antt` the keys of a setting and the answers to an ask, `Law.antt` the theorem with its
//! premises, `Accepted.antt` the setting of an accepted deployment, and `AcceptedLaw.antt` the
//! theorem from an accepted text on. The headers of packets are `sx_wire/specs/Headers.antt`, what
//! the deployer knows and which keys it gives `sx_deployer/specs/Granting.antt`.
//!
//! In `proofs/` read `tie/Tied.antt` first: the tie of a world and the source's state is the
//! invariant, which each act keeps or else shows an item that is forged.
#![tactic(auto)]

pub mod laws;
