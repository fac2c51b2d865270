//! Tests of zones, cuts, stores, steps, listers, canonical answers and copies, at the limits and on worked values, through
//! what their crates make public: a proved test costs a second proof of its crate, and this one has nothing else.
#![tactic(auto)]

#[cfg(test)]
mod canonical;
#[cfg(test)]
mod copies;
#[cfg(test)]
mod cuts;
#[cfg(test)]
mod ends;
#[cfg(test)]
mod limits;
#[cfg(test)]
mod lists;
#[cfg(test)]
mod parts;
#[cfg(test)]
mod steps;
#[cfg(test)]
mod stores;
#[cfg(test)]
mod texts;
#[cfg(test)]
mod zones;
