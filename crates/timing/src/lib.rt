//! What a path needs of who asks over it for what is lost: how long an answer takes, how far packets come behind later ones, when
//! those were sent that were lost in a silence, and the times of asks that follow, and how many may leave at all; how soon who is asked may
//! answer again; and when packets leave that are held for a player.
#![tactic(auto)]

mod arrivals;
mod ask_times;
mod feedback_budget;
mod lately;
mod laws;
mod losses;
mod nack_room;
mod path;
mod playout;
mod resend_interval;
mod round_trip;
mod silence;

pub use arrivals::Arrivals;
pub use ask_times::AskTimes;
pub use feedback_budget::FeedbackBudget;
pub use lately::Lately;
pub use laws::{
    answers_are_waited_for, answers_that_come_twice_are_measured, asks_fit_the_time,
    feedback_is_earned, few_stay_lost, losses_were_sent_in_order, packets_leave_as_they_were_sent,
    the_greatest_is_of_late,
};
pub use losses::{Losses, Tally};
pub use nack_room::{
    LONGEST_NACK, earn_feedback, feedback_room, fewer_in, renew_feedback, spend_feedback,
};
pub use path::Path;
pub use playout::{Playout, Stamp};
pub use resend_interval::ResendInterval;
pub use round_trip::{Answered, Probe, RoundTrip, Smoothed};
pub use silence::Silence;
