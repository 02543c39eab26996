// The dialogue with an engine.
use protocol_tokens::GoKind;
use search_epochs::{Call, Dialogue, Heard, Orders, Said};

/// search_epochs: a search is begun and goes out of date, so it is stopped, and its answer is known as late.
#[test]
fn a_late_answer_is_known(rt: HostRuntime) {
    let mut dialogue = Dialogue::new();
    assert!(rt; dialogue.heard(Said::UciOk) == Heard::Booted);
    let begun = dialogue.settle(Call::Move, false, None, false);
    assert!(rt; begun == Orders::Begin(Call::Move));
    dialogue.new_epoch();
    let stopped = dialogue.settle(Call::Nothing, false, None, false);
    assert!(rt; stopped == Orders::Stop);
    let late = Heard::Answer {
        kind: GoKind::Move,
        current: false,
    };
    assert!(rt; dialogue.heard(Said::Best) == late);
}
