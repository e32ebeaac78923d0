//! The texts.

pub(crate) mod file_codes;
pub(crate) mod functions;
pub(crate) mod name_codes;
pub(crate) mod operators;
pub(crate) mod overview;
pub(crate) mod queries;
pub(crate) mod query_codes;
pub(crate) mod rows;
pub(crate) mod shell;
pub(crate) mod values;
pub(crate) mod word_codes;
