pub(crate) mod insert;
pub(crate) mod room;
pub(crate) mod sides;
