// The Netpbm files made of pictures.
#![tactic(auto)]

pub mod append;
pub mod call;
pub mod decimal;
pub mod file;
