//! Tests of desks in the browser, over connections of a loopback client: the rows of the table of routes, messages, desks that are
//! taken again, two desks, and the log at the end.
#![tactic(auto)]

#[cfg(test)]
mod clients;
#[cfg(test)]
mod desk_tests;
#[cfg(test)]
mod message_tests;
#[cfg(test)]
mod route_tests;
#[cfg(test)]
mod servers;
