//! Texts, documents, slugids and moments, and the clock and the draws that a farm is told.
#![tactic(auto)]

mod clock;
mod date_time;
mod doc;
mod draws;
mod entries;
mod moment;
mod pointer;
mod reading;
mod same;
mod slug;
mod text;

pub use clock::{Clock, HostClock, ListClock};
pub use date_time::{a_text_has_one_moment, read_moment, written_moments_are_read_back};
pub use doc::Doc;
pub use draws::{Draws, ListDraws};
pub use entries::Entries;
pub use moment::{
    LAST_MOMENT, LAST_TOLD_MOMENT, Moment, moment_texts_are_one, the_last_moments, write_moment,
};
pub use reading::{ReadFault, a_text_is_of_one_document};
pub use same::same_doc;
pub use slug::{SlugId, slugs_are_texts_of_uuids};
pub use text::Text;
