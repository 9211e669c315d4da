//! The top call of gdteval: words and files to one text and a status.
#![tactic(auto)]

mod certificate;
mod check;
mod checkflat;
mod command;
mod decision;
mod flat;
mod inputs;
mod judge;
mod judgement;
mod layout;
mod program;
mod reading;
mod report;

pub use program::run;
