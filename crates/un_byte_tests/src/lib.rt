//! The tests of what stands below a link: texts, requests, the bytes of transfers, and the set-up, each by its public calls.
//! They stand in a crate of their own because a crate with tests is proved a second time with them.
#![tactic(auto)]

#[cfg(test)]
mod classreq_tests;
#[cfg(test)]
mod desc_tests;
#[cfg(test)]
mod eem_tests;
#[cfg(test)]
mod facts_tests;
#[cfg(test)]
mod frame_tests;
#[cfg(test)]
mod io_tests;
#[cfg(test)]
mod layout_tests;
#[cfg(test)]
mod ntb16_tests;
#[cfg(test)]
mod ntb32_tests;
#[cfg(test)]
mod ntb_tests;
#[cfg(test)]
mod packet_tests;
#[cfg(test)]
mod req_tests;
#[cfg(test)]
mod setup_tests;
#[cfg(test)]
mod span_tests;
#[cfg(test)]
mod text_tests;
#[cfg(test)]
mod wire_tests;
