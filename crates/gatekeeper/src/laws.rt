//! What follows for each log of a gatekeeper: these laws are over the logs alone.
pub use weave_entries::laws::{
    a_log_goes_on, channels_rise, clocks_count_none_past, counts_are_few, low_marks_are_below,
    messages_come_before, requests_end, stamps_are_its_own, stamps_rise, the_replay_goes_on,
    what_has_not_ended_goes_on,
};
