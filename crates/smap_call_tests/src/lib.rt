//! The tests of calls, of what no row of smap_rows can say: those behind the commands, devices, maps that are read when they
//! are named, and what is kept of URLs. There is nothing here to call.
#![tactic(auto)]

#[cfg(test)]
mod beginnings;
#[cfg(test)]
mod declarations;
#[cfg(test)]
mod devices;
#[cfg(test)]
mod indexes;
#[cfg(test)]
mod kept;
#[cfg(test)]
mod kept_rows;
#[cfg(test)]
mod lines;
#[cfg(test)]
mod mappings;
#[cfg(test)]
mod names;
#[cfg(test)]
mod records;
#[cfg(test)]
mod same;
#[cfg(test)]
mod shared;
#[cfg(test)]
mod stored;
#[cfg(test)]
mod stored_names;
#[cfg(test)]
mod transfer;
