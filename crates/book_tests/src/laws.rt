//! The laws are called, each once: they state what holds of all values, and do nothing. And what threads will share may be sent.
use branch_tree::{below_is_parked, fork_taken_back, given_back, names_by_path, paths_go_on};
use depends::{
    consequences_are_least, free_steps_undo, held_consequences_are_left, linearizations_agree,
    neighbours_swap, orders_undo, plans_are_consequences, steps_are_reversible,
};
use saved_steps::{nexts_are_moves, steps_are_taken_back, steps_leave_threads};
use step_history::{
    backward_orders_undo, frames_are_counted, frames_stand, free_steps_return,
    more_machines_keep_histories, threads_move_where_ready,
};

#[test]
fn laws_of_trees(_rt: HostRuntime) {
    given_back();
    fork_taken_back();
    paths_go_on();
    names_by_path();
    below_is_parked();
}

#[test]
fn laws_of_steps(_rt: HostRuntime) {
    steps_are_taken_back();
    nexts_are_moves();
    steps_leave_threads();
}

#[test]
fn laws_of_dependence(_rt: HostRuntime) {
    steps_are_reversible();
    neighbours_swap();
    free_steps_undo();
    consequences_are_least();
    orders_undo();
    linearizations_agree();
    held_consequences_are_left();
    plans_are_consequences();
}

#[test]
fn laws_of_histories(_rt: HostRuntime) {
    backward_orders_undo();
    frames_are_counted();
    frames_stand();
    free_steps_return();
    more_machines_keep_histories();
    threads_move_where_ready();
}

#[test]
fn laws_of_logs(_rt: HostRuntime) {
    book_log::equality_is_of_entries();
    book_log::holds_are_shared();
    book_log::legal_logs_run();
    book_log::moves_leave_others();
    book_log::orders_undo();
    book_log::reruns_agree();
    book_log::rollback_is_exact();
    book_log::settling_is_for_good();
    book_log::undo_answers_are_exact();
    book_log::undoing_is_exact();
}
