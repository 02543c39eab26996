// Puts the texts of options into the buffer of all texts.
ghost use Rattle.std.specs.Prelude.{◌≡◌, ◌≤◌, ◌+◌, ◌++◌, ◌∷◌, [], length, false};
ghost use Rattle.line_io.specs.Out.{with};
ghost use Rattle.uci_lines.specs.Choices.{values};
ghost use Rattle.uci_lines.specs.Messages.{option_kind_of};
ghost use Rattle.option_map.specs.DeclaredOptions.Choices.{with_quotes, with_star};
ghost use Rattle.option_map.specs.DeclaredOptions.Settings.{kept_kind, shown_kind, hidden_kind, is_bad_shape};
ghost use Rattle.option_map.specs.DeclaredOptions.Stored.{kind_in, kind_kept, IsKindIn};
ghost use Rattle.protocol_tokens.specs.Bytes.{quote, star};

use crate::declared_options::names::same_text;
use crate::declared_options::setting::TextSpan;
use crate::declared_options::stored::StoredKind;
use line_io::Out;
use uci_lines::{OptionKind, next_value};

fn put_quoted(value: &[u8], out: &mut Out)
    requires { length out.old.text + length (value.now ++ quote ∷ []) ≤ out.old.room }
    ensures { out.new ≡ with out.old (value.now ++ quote ∷ []) }
{
    out.put(value);
    out.put(b"\"");
}

fn put_starred(value: &[u8], out: &mut Out)
    requires { length out.old.text + length ((star ∷ value.now) ++ quote ∷ []) ≤ out.old.room }
    ensures { out.new ≡ with out.old ((star ∷ value.now) ++ quote ∷ []) }
{
    out.put(b"*");
    put_quoted(value, out);
}

fn put_plain(text: &[u8], out: &mut Out)
    requires { length out.old.text + length (with_quotes (values text.now)) ≤ out.old.room }
    ensures { out.new ≡ with out.old (with_quotes (values text.now)) }
{
    let mut others = text;
    while let Some((value, after)) = next_value(others) {
        put_quoted(value, out);
        others = after;
    }
}

/// Puts the values of a combo, each with a quote at its end, a star before the first that equals the default.
fn put_choices(default: &[u8], text: &[u8], out: &mut Out)
    requires { length out.old.text + length (with_quotes (with_star default.now (values text.now)))
        ≤ out.old.room }
    ensures { out.new ≡ with out.old (with_quotes (with_star default.now (values text.now))) }
{
    let mut others = text;
    while let Some((value, after)) = next_value(others) {
        if same_text(default, value) {
            put_starred(value, out);
            put_plain(after, out);
            return;
        }
        put_quoted(value, out);
        others = after;
    }
}

fn span_from(at: usize, out: &Out) -> TextSpan
    requires { at ≤ length out.now.text }
    ensures at { result.at ≡ at }
    ensures end { result.at + result.len ≡ length out.now.text }
{
    let len = out.bytes().len() - at;
    TextSpan { at, len }
}

fn store_shown(kind: OptionKind, out: &mut Out) -> StoredKind
    requires good { is_bad_shape (option_kind_of kind) ≡ false }
    requires room { length out.old.text + length (kind_kept (shown_kind (option_kind_of kind)))
        ≤ out.old.room }
    ensures texts { out.new ≡ with out.old (kind_kept (shown_kind (option_kind_of kind.entry))) }
    ensures kind { kind_in out.new.text result ≡ shown_kind (option_kind_of kind.entry) }
    ensures within { IsKindIn (length out.new.text) result }
{
    let at = out.bytes().len();
    match kind {
        OptionKind::Check { on } => StoredKind::Check(on),
        OptionKind::Spin { default, min, max } => StoredKind::Spin { default, min, max },
        OptionKind::Combo { default, values } => {
            put_choices(default, values, out);
            StoredKind::Combo(span_from(at, out))
        }
        OptionKind::Button => StoredKind::Button,
        OptionKind::Text { default } => {
            out.put(default);
            StoredKind::Text(span_from(at, out))
        }
    }
}

fn hidden_kind(kind: OptionKind, out: &Out) -> StoredKind
    ensures kind { kind_in out.now.text result ≡ hidden_kind (option_kind_of kind.entry) }
    ensures within { IsKindIn (length out.now.text) result }
{
    let nothing = TextSpan { at: 0, len: 0 };
    match kind {
        OptionKind::Check { on } => StoredKind::Check(on),
        OptionKind::Spin { default, min, max } => StoredKind::Spin { default, min, max },
        OptionKind::Combo { .. } => StoredKind::Combo(nothing),
        OptionKind::Button => StoredKind::Button,
        OptionKind::Text { .. } => StoredKind::Text(nothing),
    }
}

/// Puts the texts that are kept of an option.
pub(crate) fn store(kind: OptionKind, hidden: bool, out: &mut Out) -> StoredKind
    requires good { is_bad_shape (option_kind_of kind) ≡ false }
    requires room { length out.old.text
        + length (kind_kept (kept_kind hidden (option_kind_of kind))) ≤ out.old.room }
    ensures texts { out.new
        ≡ with out.old (kind_kept (kept_kind hidden (option_kind_of kind.entry))) }
    ensures kind { kind_in out.new.text result ≡ kept_kind hidden (option_kind_of kind.entry) }
    ensures within { IsKindIn (length out.new.text) result }
{
    if hidden {
        return hidden_kind(kind, out);
    }
    store_shown(kind, out)
}
