//! Dynamic values: JSON texts read and printed, a look into arrays and bags, and the calls on arrays, bags and sets.
#![tactic(auto)]

mod arrays;
mod bags;
mod hashed;
mod json;
mod laws;
mod parts;
mod print;
mod sets;

pub use arrays::{
    array_concat, array_index_of, array_length, array_reverse, array_slice, pack_array,
};
pub use bags::{bag_has_key, bag_keys, bag_merge, bag_pack};
pub use json::parse_json;
pub use laws::{elements_of_sets, keys_of_several_bags, order_of_sets, slices_and_joins};
pub use parts::{are_well_formed, at_index, at_name, levels};
pub use print::print_json;
pub use sets::{set_difference, set_has_element, set_intersect, set_union};
