//! The search as a C library.
#![tactic(auto)]

mod anchored;
mod backward;
mod exports;
mod handle;
mod loose;
mod message;
mod outcome;
mod owned;
mod parked;
mod parts;
mod queue;
mod safe;
mod session;
