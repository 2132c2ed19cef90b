pub(crate) mod numbered;
pub(crate) mod one_pass;
pub(crate) mod part_items;
pub(crate) mod scan;
