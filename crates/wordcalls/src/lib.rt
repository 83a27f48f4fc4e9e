// The requests of the library as calls over words, for hosts to link. Each contract says what a host sees after the call, in the words of
// the demands and without the request's own statement: a request whose contract says less no longer proves its caller.
// round_trips, turns and witness export nothing: they are here to be proved.
#![tactic(auto)]

pub mod check;
pub mod combination;
pub mod negation;
pub mod opening;
pub mod pack;
pub mod product;
pub mod quote;
pub mod round_trips;
pub mod scaling;
pub mod tally;
mod told;
pub mod total;
pub mod transpose;
pub mod turn;
pub mod turns;
pub mod unpack;
pub mod width;
pub mod witness;
