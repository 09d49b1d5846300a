// A room that is written from its front.
#![tactic(auto)]

pub use room::Room;

mod room;
mod write;
