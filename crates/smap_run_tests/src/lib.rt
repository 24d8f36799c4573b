//! The tests of runs that no row of smap_rows can say, and the rows that the program was specified by. There is nothing here
//! to call.
#![tactic(auto)]

#[cfg(test)]
mod awaited;
#[cfg(test)]
mod broken;
#[cfg(test)]
mod broken_runs;
#[cfg(test)]
mod endless;
#[cfg(test)]
mod files;
#[cfg(test)]
mod runs;
#[cfg(test)]
mod same;
#[cfg(test)]
mod worked;
