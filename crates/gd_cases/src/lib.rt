//! Tests of the public calls of other crates, which are proved once each because their tests stand here.
#![tactic(auto)]

#[cfg(test)]
mod certificates;
#[cfg(test)]
mod frame_cases;
#[cfg(test)]
mod frame_files;
#[cfg(test)]
mod frame_runs;
#[cfg(test)]
mod frame_tables;
#[cfg(test)]
mod runs;
#[cfg(test)]
mod searches;
#[cfg(test)]
mod shelves;
#[cfg(test)]
mod slow_files;
