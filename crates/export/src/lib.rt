// What C may call (include/burst.h): numbers in, numbers out, over the layers below. Nothing is decided here.
#![tactic(auto)]

mod answer;
pub mod batch;
pub mod code;
mod coded;
pub mod decode;
mod decoded;
mod iwadare_decoded;
pub mod iwadare_stations;
pub mod make;
pub mod read;
mod reading;
pub mod start;
mod table;
pub mod test_load;
pub mod write;
mod written;
