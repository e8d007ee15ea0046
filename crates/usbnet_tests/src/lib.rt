//! The tests of a link and of the commands, over sources and sinks in memory. They stand in a crate of their own because a
//! crate with tests is proved a second time with them.
#![tactic(auto)]

#[cfg(test)]
mod builder_tests;
#[cfg(test)]
mod decode_tests;
#[cfg(test)]
mod failing_tests;
#[cfg(test)]
mod gates;
#[cfg(test)]
mod link_tests;
#[cfg(test)]
mod main_tests;
#[cfg(test)]
mod packing_tests;
#[cfg(test)]
mod retry_tests;
#[cfg(test)]
mod rndis_tests;
#[cfg(test)]
mod serial_tests;
