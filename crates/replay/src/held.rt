use volume::held::{Clear, Found};

// The volume that a script holds.
#[derive(Debug, Drop)]
pub enum Held {
    Found(Found),
    Clear(Clear),
}
