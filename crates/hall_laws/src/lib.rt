//! The model: what a hall makes of each event, and runs of its steps, as definitions with their laws.
#![tactic(auto)]

mod migration;
mod model;
mod past;
mod steps;

pub use migration::{
    first_answers_name_no_kind, first_erasing_is_released, first_halls_keep_no_kind,
    first_laws_hold, first_runs_go_on, first_steps_are_made, forgotten_is_carried, full_alone,
    laws_hold_from_origins,
};
pub use model::refusals_change_nothing;
pub use past::{
    deploying_is_commanded, entries_by_table, erasing_is_released, local_boots, machines_stay,
    numbers_once, orders_and_answers, own_boots, refusals_leave_the_hall, reports_count_once,
    request_keys, scripts_are_asked, texts_are_scripts, versions_rise_by_changes,
};
pub use steps::{decisions_keep_the_rules, steps_keep_halls_sound};
