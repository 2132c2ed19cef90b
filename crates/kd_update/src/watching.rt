pub(crate) mod insert_watched;
pub(crate) mod log_put;
pub(crate) mod log_scan;
pub(crate) mod put_beside;
pub(crate) mod scan_watched;
