//! The calls of a page in a browser: rows of blocks encoded, polished, judged and shown, the header
//! of a file and the fields of a block. The calls take no memory and keep nothing from call to
//! call.
#![tactic(auto)]

mod blocks;
mod headers;
mod rows;
