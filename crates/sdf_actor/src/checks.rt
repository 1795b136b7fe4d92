//! The tests of a net, one module for each group of faults. `Parts::new` runs them in this order and returns the first
//! fault: `counts` 2 ActorCount, 3 ChannelCount; for each link, `links` 20 NoPort, 21 PortTwice; `ports` 22 PortOpen;
//! `lists` 23 ExtTwice, 26 NoInput, 27 NoOutput; for each link, `numbers` 5 BadRate, 63 CycleLength, 6 InitialCount;
//! then the graph's own 7 NotConnected and 8 Inconsistent or 9 PeriodTooLong; `samples` 24 InputRates, 25 OutputRates.

pub(crate) mod counts;
pub(crate) mod links;
pub(crate) mod lists;
pub(crate) mod numbers;
pub(crate) mod ports;
pub(crate) mod samples;
