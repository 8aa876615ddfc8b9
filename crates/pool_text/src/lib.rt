//! Pools: the rows that some links of a heap reach, in first-seen order and with places for links, and the JSON document that
//! stands for a pool.
#![tactic(auto)]

mod damage;
mod from_heap;
mod from_json;
mod from_rows;
mod laws;
mod lengths;
mod numbers;
mod pool;
mod reading;
mod relink;
mod row;
mod row_in;
mod rules;
mod texts;
mod written;

pub use damage::Damage;
pub use from_heap::{pool_by_texts, pool_of};
pub use from_json::{pool_from_bytes, pool_from_json, present_pool_from_bytes};
pub use from_rows::pool_of_rows;
pub use laws::{
    compact_documents_are_texts, documents_are_exact, heaps_are_rooted, nothing_leaks,
    pools_are_renamed, pools_stay, reads_back, renamed_have_one_pool, renamed_reads_the_same,
    renaming_turns_back, texts_are_forms, worked_documents,
};
pub use lengths::text_length;
pub use numbers::{elements_of, number_between, number_of, numbers_of};
pub use pool::{Pool, Rows};
pub use reading::{is_over, value_at, value_from_bytes};
pub use relink::{at_places, relinked};
pub use row::{Places, PoolText, Row, link_at};
pub use row_in::rows_of;
pub use rules::{
    FIRST_CODE_BITS, FIRST_DEEPEST, FIRST_VERSION, MOST_HISTORY, PRESENT_VERSION, Rules,
    SECOND_VERSION,
};
pub use texts::{CellTexts, OwnTexts};
pub use written::{into_bytes, numbers_value, rows_value, to_bytes, to_json};
