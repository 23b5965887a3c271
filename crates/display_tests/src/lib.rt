// Tests of the printer, the measure and the buffer: worked lines, refusals at each place, and sinks that are too short.
#![tactic(auto)]

#[cfg(test)]
mod buffers;
#[cfg(test)]
mod printed;
#[cfg(test)]
mod refusals;
#[cfg(test)]
mod rooms;
