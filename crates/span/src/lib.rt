// Words over GF(2), their combinations, and the least relation among them.
#![tactic(auto)]

pub mod bits;
pub mod combine;
pub mod dual;
pub mod eliminate;
pub mod lookup;
