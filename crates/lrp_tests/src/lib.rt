//! Tests of calls that no command makes, or none at their limits, through what their crates make public: a proved test
//! costs a second proof of its crate, and this one has nothing else.
#![tactic(auto)]

#[cfg(test)]
mod copies;
#[cfg(test)]
mod matrices;
#[cfg(test)]
mod parts;
#[cfg(test)]
mod points;
#[cfg(test)]
mod sure;
#[cfg(test)]
mod texts;
#[cfg(test)]
mod tokens;
