//! Page 0 of a store, its header: how it begins, and what it says of a database behind that.
#![tactic(auto)]

mod fronts;
mod header_fields;
mod numbers;

pub use fronts::{
    FINISHED, Front, UNFINISHED, front_of, has_state, is_finished, is_unfinished, set_finished,
    set_unfinished,
};
pub use header_fields::{Fields, fields_of, first_of, limits_in, new_payload, put_fields, root_of};
pub use numbers::{u16_of, u32_of, u64_of};
