// The laws that the layers below the dialogue state, each named once.
use cecp_lines::{lines_are_unambiguous, replies_are_short};
use clock_map::{clocks_stay_short, searches_are_short};
use fen_text::{read_is_normal, written_reads_back};
use option_map::{
    asked_orders_are_spelled, feature_lists_are_short, last_orders_are_held,
    paths_are_set_as_strings,
};
use script_lines::{lines_are_of_one_kind, scripts_are_read_back};
use think_text::{current_stays_writable, thinking_lines_are_short};
use uci_lines::lines_say_one_message;

#[test]
fn laws_hold(_rt: HostRuntime) {
    lines_are_unambiguous();
    replies_are_short();
    lines_say_one_message();
    clocks_stay_short();
    searches_are_short();
    current_stays_writable();
    thinking_lines_are_short();
    feature_lists_are_short();
    last_orders_are_held();
    asked_orders_are_spelled();
    paths_are_set_as_strings();
    lines_are_of_one_kind();
    scripts_are_read_back();
    read_is_normal();
    written_reads_back();
}
