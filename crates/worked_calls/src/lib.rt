//! Calls that no row of a table makes: devices of a fake runtime and of the host, generic items at a type of one's own, a law
//! at a chooser, and a bundle of 3,000,000 bytes that is made of its parts.
#![tactic(auto)]

#[cfg(test)]
mod devices;
#[cfg(test)]
mod entries;
#[cfg(test)]
mod lists;
#[cfg(test)]
mod made;
