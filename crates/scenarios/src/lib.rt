// The worked scenarios, proved as one table, and the larger tests. The expected values are worked out by hand from the rules.
#![tactic(auto)]

#[cfg(test)]
mod books;
#[cfg(test)]
mod made;
#[cfg(test)]
mod packets;
#[cfg(test)]
mod reading;
pub mod table;
#[cfg(test)]
mod writing;
