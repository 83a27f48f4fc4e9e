// What a host sees after each call over bytes: of the C face, of the lines of a text, and of a whole text. No crate calls these, and no host links
// them: they are here to be proved, as wordcalls says.
#![tactic(auto)]

pub mod face;
pub mod lines;
pub mod text;
