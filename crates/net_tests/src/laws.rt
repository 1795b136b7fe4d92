//! The laws of graphs, schedules and nets, each called once.

use sdf_actor::laws::{
    histories_grow, history_grows_by_firing, nets_are_wired, one_history, taken_stays,
};
use sdf_graph::laws::{
    alike_sequences, counts_grow, cycles_begin_anew, graphs_are_sound, graphs_have_periods,
    one_least_period, periods_repeat, sums_rise, whole_cycles_move,
};
use sdf_sched::laws::{
    enabled_stays, period_or_deadlock, rounds_pass, runs_stay, stuck_counts_mean_deadlock,
    stuck_means_deadlock,
};
use test_actors::{Sum, Swap};

#[test]
fn laws(_rt: HostRuntime) {
    graphs_are_sound();
    graphs_have_periods();
    one_least_period();
    counts_grow();
    sums_rise();
    cycles_begin_anew();
    whole_cycles_move();
    periods_repeat();
    alike_sequences();
    enabled_stays();
    stuck_counts_mean_deadlock();
    stuck_means_deadlock();
    period_or_deadlock();
    rounds_pass();
    runs_stay();
    one_history::<Sum>();
    histories_grow::<Sum>();
    history_grows_by_firing::<Swap>();
    nets_are_wired::<Swap>();
    taken_stays::<Sum>();
}
