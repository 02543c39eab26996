use judge_and_driver_laws::{logs_are_clean, scripts_are_clean, taps_are_clean};
use policy_rules::Settings;
use session_judge::crossings_are_the_difference;

#[test]
fn laws_can_be_called(_rt: HostRuntime) {
    logs_are_clean(Settings::usual());
    scripts_are_clean(Settings::usual());
    taps_are_clean();
    crossings_are_the_difference();
}
