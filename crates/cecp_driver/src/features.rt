// The features of the engine.
ghost use Rattle.std.specs.Prelude.{◌≡◌, ◌+◌, ◌*◌, ◌≤◌, ◌∷◌, [], length, IfSome, false};
ghost use Rattle.line_io.specs.Out.{with};
ghost use Rattle.driver_state_machine.specs.Parts.{feature_of, feature_parts, cut_seen, onto, IsNamed};
ghost use Rattle.driver_state_machine.specs.Lines.{lines_text};
ghost use Rattle.cecp_driver.specs.Features.{feature_has_word, is_feature_on, rejects, answer_line, has_after, name_after, greeting, has_all, name_all, feature_answers, greetings, feature_weight};

use driver_state_machine::{
    CutFeature, NamedFeature, next_cut, write_answer, write_id, write_word,
};
use line_io::Out;

/// The features that the engine has said it has, and that it has said all.
#[derive(Clone, Copy, Debug, PartialEq, Eq)]
pub(crate) struct HasFeatures {
    pub ping: bool,
    pub setboard: bool,
    pub usermove: bool,
    pub analyze: bool,
    pub done: bool,
}

fn is_on(part: &NamedFeature, name: &[u8]) -> bool
    ensures { result ≡ is_feature_on name.now (feature_of part.now) }
{
    part.name == name && part.value == b"1".as_slice()
}

fn has_word(part: &NamedFeature, name: &[u8]) -> bool
    ensures { result ≡ feature_has_word name.now (feature_of part.now) }
{
    part.name == name
}

/// True if a feature is rejected: `san=1`, and what a driver has no use for.
fn rejects(part: &NamedFeature) -> bool
    ensures { result ≡ rejects (feature_of part.now) }
{
    is_on(part, b"san")
        || has_word(part, b"option")
        || has_word(part, b"memory")
        || has_word(part, b"smp")
        || has_word(part, b"egt")
}

fn has_after(has: HasFeatures, part: &NamedFeature) -> HasFeatures
    ensures { result ≡ has_after has (feature_of part.now) }
{
    HasFeatures {
        ping: has.ping || is_on(part, b"ping"),
        setboard: has.setboard || is_on(part, b"setboard"),
        usermove: has.usermove || is_on(part, b"usermove"),
        analyze: has.analyze || is_on(part, b"analyze"),
        done: has.done || is_on(part, b"done"),
    }
}

/// Answers a feature.
fn answer(part: &NamedFeature, down: &mut Out)
    requires room { length down.old.text + length (feature_of part.now).name + 10 ≤ down.old.room }
    ensures text { down.new ≡ with down.old (lines_text (answer_line (feature_of part.now) ∷ [])) }
    ensures short { length down.new.text
        ≤ length down.old.text + length (feature_of part.now).name + 10 }
{
    write_answer(part.name, rejects(part), down);
}

/// Keeps the engine's name.
fn keep_name(part: &NamedFeature, name: &mut Out)
    requires room { length (feature_of part.now).value ≤ name.old.room }
    ensures text { name.new.text ≡ name_after name.old.text (feature_of part.now) }
    ensures room { name.new.room ≡ name.old.room }
{
    if has_word(part, b"myname") {
        name.clear();
        name.put(part.value);
    }
}

/// Writes the engine's name and `uciok` to the interface, if the engine has sent all its features.
fn greet(has: HasFeatures, part: &NamedFeature, name: &[u8], up: &mut Out)
    requires room { has.done ≡ false → length up.old.text + length name.now + 30 ≤ up.old.room }
    ensures text { up.new ≡ with up.old (greeting has name.now (feature_of part.now)) }
    ensures silent { (has_after has (feature_of part.now)).done ≡ false → up.new ≡ up.old }
{
    if has.done {
        return;
    }
    if is_on(part, b"done") {
        write_id(name, up);
        write_word(b"uciok", up);
    }
}

/// The changes by a feature, and the output to both sides for it.
fn hear_part(
    has: HasFeatures,
    part: &NamedFeature,
    name: &mut Out,
    up: &mut Out,
    down: &mut Out,
) -> HasFeatures
    requires value { length (feature_of part.now).value ≤ name.old.room }
    requires up { has.done ≡ false → length up.old.text + name.old.room + 30 ≤ up.old.room }
    requires down { length down.old.text + length (feature_of part.now).name + 10 ≤ down.old.room }
    ensures has { result ≡ has_after has (feature_of part.now) }
    ensures silent { result.done ≡ false → up.new ≡ up.old }
    ensures name { name.new.text ≡ name_after name.old.text (feature_of part.now) }
    ensures name_room { name.new.room ≡ name.old.room }
    ensures up { up.new ≡ with up.old (greeting has name.old.text (feature_of part.now)) }
    ensures down { down.new ≡ with down.old (lines_text (answer_line (feature_of part.now) ∷ [])) }
    ensures down_short { length down.new.text
        ≤ length down.old.text + length (feature_of part.now).name + 10 }
{
    greet(has, part, name.bytes(), up);
    answer(part, down);
    keep_name(part, name);
    has_after(has, part)
}

/// The same for what was cut off the start of a text.
fn hear_cut(
    has: HasFeatures,
    cut: &CutFeature,
    name: &mut Out,
    up: &mut Out,
    down: &mut Out,
) -> HasFeatures
    requires named { IsNamed (cut_seen cut.now) }
    requires value { IfSome (cut_seen cut.now).part (λ f. length f.value ≤ name.old.room) }
    requires up { has.done ≡ false → length up.old.text + name.old.room + 30 ≤ up.old.room }
    requires down { IfSome (cut_seen cut.now).part
        (λ f. length down.old.text + length f.name + 10 ≤ down.old.room) }
    ensures has { result ≡ has_all has (onto (cut_seen cut.now).part []) }
    ensures silent { result.done ≡ false → (has.done ≡ false) × (up.new ≡ up.old) }
    ensures down_short { length down.new.text + 6 * length (cut_seen cut.now).rest
        ≤ length down.old.text + 6 * feature_weight (cut_seen cut.now) }
    ensures name { name.new.text ≡ name_all name.old.text (onto (cut_seen cut.now).part []) }
    ensures name_room { name.new.room ≡ name.old.room }
    ensures up { up.new
        ≡ with up.old (greetings has name.old.text (onto (cut_seen cut.now).part [])) }
    ensures down { down.new
        ≡ with down.old (lines_text (feature_answers (onto (cut_seen cut.now).part []))) }
{
    match &cut.part {
        Some(part) => hear_part(has, part, name, up, down),
        None => has,
    }
}

/// The changes by the features of a line, and the output to both sides for them.
pub(crate) fn hear_features(
    text: &[u8],
    before: HasFeatures,
    name: &mut Out,
    up: &mut Out,
    down: &mut Out,
) -> HasFeatures
    requires name { length text.now ≤ name.old.room }
    requires up { length up.old.text + name.old.room + 30 ≤ up.old.room }
    requires down { length down.old.text + 6 * length text.now ≤ down.old.room }
    ensures has { result ≡ has_all before (feature_parts text.now) }
    ensures name { name.new.text ≡ name_all name.old.text (feature_parts text.now) }
    ensures name_room { name.new.room ≡ name.old.room }
    ensures up { up.new ≡ with up.old (greetings before name.old.text (feature_parts text.now)) }
    ensures down { down.new ≡ with down.old (lines_text (feature_answers (feature_parts
        text.now))) }
{
    let mut has = before;
    let mut others = text;
    while let Some(cut) = next_cut(others) {
        has = hear_cut(has, &cut, name, up, down);
        others = cut.rest;
    }
    has
}
