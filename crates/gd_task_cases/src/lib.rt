//! Tests of conditions, of boxes of placements, and of the tasks of placements and forms, by their public calls.
#![tactic(auto)]

#[cfg(test)]
mod boxes;
#[cfg(test)]
mod forms;
#[cfg(test)]
mod plates;
#[cfg(test)]
mod values;
