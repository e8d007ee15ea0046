//! The tests of the history, of scripts and reports, and of what a link's lanes are made of, each by its public calls. They
//! stand in a crate of their own because a crate with tests is proved a second time with them.
#![tactic(auto)]

#[cfg(test)]
mod agg_tests;
#[cfg(test)]
mod check_tests;
#[cfg(test)]
mod gadget_tests;
#[cfg(test)]
mod host_tests;
#[cfg(test)]
mod journal_tests;
#[cfg(test)]
mod receive_tests;
#[cfg(test)]
mod report_tests;
#[cfg(test)]
mod script_tests;
#[cfg(test)]
mod transmit_tests;
