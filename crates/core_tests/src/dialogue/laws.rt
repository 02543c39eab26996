// The laws of sessions, lawful traces, scripts and searches.
use adapter_core::{
    ended_sides_get_nothing, interface_alone, moves_are_shown_in_time, one_dialogue,
};
use policy_rules::Settings;
use random_games::drills_are_one;
use search_epochs::{fenced_searches, open_search, served_call, whole_dialogue, whole_turn};
use trace_laws::{
    cores_within_limits, engine_on_wire, last_settings_stand, laws_hold, order_places,
    pings_get_pongs, searches_are_fenced, searches_end_once, searches_serve, traces_are_dialogues,
    traces_exist, written_texts_are_lines,
};
use trace_scripts::scripts_have_one_trace;

#[test]
fn laws_can_be_called(_rt: HostRuntime) {
    let settings = Settings::usual();
    one_dialogue(settings);
    ended_sides_get_nothing(settings);
    interface_alone(settings);
    moves_are_shown_in_time(settings);
    engine_on_wire(settings);
    traces_exist(settings);
    cores_within_limits(settings);
    traces_are_dialogues(settings);
    searches_serve(settings);
    searches_end_once(settings);
    searches_are_fenced(settings);
    order_places(settings);
    last_settings_stand(settings);
    pings_get_pongs(settings);
    written_texts_are_lines(settings);
    laws_hold(settings);
    scripts_have_one_trace(settings);
    drills_are_one();
    whole_turn();
    whole_dialogue();
    open_search();
    served_call();
    fenced_searches();
    search_epochs::order_places();
}
