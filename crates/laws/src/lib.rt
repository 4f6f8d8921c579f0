// The laws of the log as mathematics: what sectors hold by it, what a cut leaves of it, how long it gets, how blocks wear, and what is believed after a cut.
#![tactic(auto)]

pub mod log_laws;
pub mod recovery_laws;
pub mod space_laws;
pub mod wear_laws;
