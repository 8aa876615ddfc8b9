//! The tests of a pool: which pools are valid, and the damage of those that aren't.
#![tactic(auto)]

mod checked_roots;
mod checking;
mod kinds;
mod laws;
mod order;
mod root;
mod rows;
mod tested;
mod trie_row;
mod tries;
mod vectors;

pub use checked_roots::CheckedRoots;
pub use checking::{Checked, Old, check, check_old, check_roots};
pub use laws::{
    damaged_pools, damages_are_tests, pools_pass_as_made, trie_roots_are_canonical,
    tries_read_the_same, undamaged_documents_stand, undamaged_is_valid, undamaged_pools,
    valid_documents_are_undamaged, valid_has_valid_rows, valid_is_of_itself, vector_roots_are_good,
    vectors_read_the_same, worked_damages,
};
pub use root::RootKind;
pub use tested::{Tested, check_more, check_open};
