//! Entries of a history.
use crate::Update;

#[derive(Debug)]
pub struct Entry {
    /// From 1 to 8.
    pub caller: u8,
    /// How many updates this caller made before it.
    pub seq: u32,
    pub update: Update,
}

// Manual `Drop`: a derived one is proved at every exit of every owner.
impl Drop for Entry {
    fn drop(self) {
        let Entry {
            caller: _caller,
            seq: _seq,
            update: _update,
        } = self;
    }
}
