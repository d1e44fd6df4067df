// What the two processors see of the lent memories. Document 01, "Lent memory"; document 02, tickets 2 and 3.
#![tactic(auto)]

pub mod view8088;
pub mod viewz80;

pub use view8088::{Seen, access_8088, read_8088, seen_8088, store_8088};
pub use viewz80::{read_z80, store_z80};
