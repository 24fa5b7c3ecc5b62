//! How a tablet file is laid out: blocks of records with rising keys, an index, a filter and a footer. Each part is spelled
//! in one way and read field by field, a fault by its offset; blocks are checked and surveyed in one pass.
#![tactic(auto)]

mod alike;
mod footer;
mod index;
mod laws;
mod records;
mod spelling;
mod survey;
mod totals;

pub use footer::{
    FOOTER_LEN, HEADER, Parts, check_filter, check_header, check_totals, footer_of, footer_place,
};
pub use index::{IndexEntry, index_of};
pub use laws::file_laws;
pub use spelling::{spell_footer, spell_index};
pub use survey::{Survey, check_block, survey_block};
pub use totals::Totals;
