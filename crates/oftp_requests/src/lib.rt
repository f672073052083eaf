//! How each request of a command is carried out, over a life of the station or by the station that has the database open.
#![tactic(auto)]

mod answers;
mod asked;
mod asking;
mod codes;
mod comparing;
mod due;
mod ended;
mod entries;
mod fetched;
mod judging;
mod lines;
mod listed;
mod made;
mod outgoing;
mod pacing;
mod resending;
mod settled;
mod sought;
mod standings;
mod talking;

pub use answers::{answer_of, answer_of_call, bare_answer, copy_let};
pub use asked::{Asked, Order, Wanted, partner_of, recorded_request, request_octets};
pub use asking::{Backend, look_up, operate};
pub use codes::{PartnerLimit, codes_of, overdues_of};
pub use comparing::Comparison;
pub use due::is_due;
pub use ended::{GONE, number_in, outcome_in, refusal_in, stopped_in};
pub use entries::{FileEntry, FileList};
pub use fetched::entry_to_fetch;
pub use judging::{
    Closing, changes_register, closing_of, declined, ended_for, ending_with, farewell_of, goes_on,
    last_status, office_after, office_within, result_at, result_of, told_reason, told_status,
    trouble_of,
};
pub use lines::line_of_ending;
pub use made::{Made, stopping};
pub use outgoing::write_outgoing;
pub use pacing::Pace;
pub use resending::{Again, resend};
pub use sought::{Sought, sought_by};
pub use standings::{Counting, Whose, counted_as, files_in, standing_in, standing_out};
pub use talking::{
    Came, Need, Saying, Sequel, Welcome, came_of, end_after, end_of_input, need_of, office_behind,
    office_under, sequel_of, trouble_greeting, trouble_hearing, welcome_after, welcome_of,
};
