// The options that an engine declared.
ghost use Rattle.std.specs.Prelude.{◌≡◌, ◌≤◌, ◌+◌, ◌++◌, ◌∷◌, [], length, IfOk, IfSome, None, false};
ghost use Rattle.std.specs.Option.{option_map};
ghost use Rattle.uci_lines.specs.Messages.{option_kind_of};
ghost use Rattle.indexmap.specs.IndexMap.{spare};
ghost use Rattle.line_io.specs.Out.{with};
ghost use Rattle.option_map.specs.DeclaredOptions.Settings.{option_by_name, kept_as, is_unshowable, is_bad_shape, shown_length, text_size, features};
ghost use Rattle.option_map.specs.DeclaredOptions.Shown.{has_kind, is_spin, is_text};
ghost use Rattle.option_map.specs.WaitingOrders.Asked.{AskedOrdersAreShort, IsRange};
ghost use Rattle.option_map.specs.DeclaredOptions.Stored.{stored_settings_in, setting_seen, kind_seen, kind_kept, AreStored};
ghost use Rattle.option_map.specs.declared.declared_options.names.TheConstants.{MOST_OPTION_NAME};
ghost use Rattle.option_map.specs.declared.declared_options.options.TheConstants.{MOST_OPTIONS, FEATURE_BYTES};

use crate::declared_options::declared::Declared;
use crate::declared_options::declaring::is_unshowable;
use crate::declared_options::names::{MOST_OPTION_NAME, Name, folded, is_hidden, spelled};
use crate::declared_options::setting::{OptionSetting, SettingKind};
use crate::declared_options::stored::{Stored, setting_in};
use crate::declared_options::storing::store;
use crate::declared_options::style::{FeatureStyle, TextFeature, text_feature};
use crate::feature_lists::features::put_feature;
use crate::feature_lists::measure::shown_length;
use indexmap::IndexMap;
use line_io::{NoMemory, Out};
use std::alloc::Global;
use std::marker::Model;
use uci_lines::OptionMsg;

type Table = IndexMap<Name, Stored>;

/// The greatest number of options that may be declared.
pub const MOST_OPTIONS: usize = 256;

/// The greatest number of bytes of all their feature lines, without line feeds.
pub const FEATURE_BYTES: usize = 65_536;

/// The options that an engine declared, in the order of declaration: at most `MOST_OPTIONS`, whose feature lines
/// have at most `FEATURE_BYTES`. The memory for all of them is taken when it is made.
#[derive(Drop)]
pub struct Options {
    /// By the name in lower case.
    table: Table,
    texts: Out,
    /// The bytes of all feature lines.
    size: usize,
}

impl Model for Options {
    ghost use Rattle.std.specs.Prelude.{List};
    ghost use Rattle.option_map.specs.DeclaredOptions.Settings.{OptionSetting};
    ghost use Rattle.option_map.specs.DeclaredOptions.Stored.{stored_settings_in, AreKept};
    ghost use Rattle.indexmap.specs.IndexMap.{spare};

    ghost Value = { List OptionSetting };

    ghost view = { λ o. stored_settings_in o.texts.text o.table.entries };

    ghost invariant = { λ o. AreKept o.texts o.table.entries (spare o.table) o.size };
}

fn find<'a>(table: &'a Table, texts: &'a [u8], name: &[u8]) -> Option<OptionSetting<'a>>
    requires { AreStored (length texts.now) table.now.entries }
    ensures setting { option_map setting_seen result
        ≡ option_by_name name.now (stored_settings_in texts.now table.now.entries) }
    ensures range { IfSome result (λ s. IsRange (kind_seen s.kind)) }
{
    if name.len() > MOST_OPTION_NAME {
        return None;
    }
    let stored = table.get(&folded(name))?;
    Some(setting_in(texts, stored))
}

fn keep(table: &mut Table, texts: &mut Out, msg: &OptionMsg, hidden: bool, feature: TextFeature)
    requires stored { AreStored (length texts.old.text) table.old.entries }
    requires place { 1 ≤ spare table.old }
    requires new { option_by_name msg.now.name.now
        (stored_settings_in texts.old.text table.old.entries) ≡ None }
    requires short { length msg.now.name.now ≤ MOST_OPTION_NAME }
    requires good { is_bad_shape (option_kind_of msg.now.kind) ≡ false }
    requires room { length texts.old.text
        + length (kind_kept (kept_as hidden feature msg.now.name.now (option_kind_of msg.now.kind)).kind)
        ≤ texts.old.room }
    ensures kept { stored_settings_in texts.new.text table.new.entries
        ≡ stored_settings_in texts.old.text table.old.entries
        ++ kept_as hidden feature msg.now.name.now (option_kind_of msg.now.kind) ∷ [] }
    ensures stored { AreStored (length texts.new.text) table.new.entries }
    ensures spare { spare table.old ≤ spare table.new + 1 }
    ensures count { length table.new.entries ≡ length table.old.entries + 1 }
    ensures texts { texts.new
        ≡ with texts.old
        (kind_kept (kept_as hidden feature msg.now.name.now (option_kind_of msg.now.kind)).kind) }
{
    let kind = store(msg.kind, hidden, texts);
    let name = spelled(msg.name);
    let _ = table.insert(
        folded(msg.name),
        Stored {
            name,
            kind,
            hidden,
            text_feature: feature,
        },
    );
}

fn put_features(table: &Table, texts: &[u8], out: &mut Out)
    requires stored { AreStored (length texts.now) table.now.entries }
    requires room { length out.old.text
        + length (features (stored_settings_in texts.now table.now.entries)) ≤ out.old.room }
    ensures { out.new ≡ with out.old (features (stored_settings_in texts.now table.now.entries)) }
{
    for stored in table.values() {
        put_feature(setting_in(texts, stored), out);
    }
}

fn is_spin(found: Option<OptionSetting>) -> bool
    ensures { result ≡ has_kind is_spin (option_map setting_seen found.entry) }
{
    match found {
        Some(setting) => matches!(setting.kind, SettingKind::Spin { .. }),
        None => false,
    }
}

fn is_text(found: Option<OptionSetting>) -> bool
    ensures { result ≡ has_kind is_text (option_map setting_seen found.entry) }
{
    match found {
        Some(setting) => matches!(setting.kind, SettingKind::Text(_)),
        None => false,
    }
}

impl Options {
    ghost use Rattle.option_map.specs.DeclaredOptions.Settings.{declaration_outcome, after_declared};
    ghost use Rattle.uci_lines.specs.Orders.{optional_now};
    ghost use Rattle.option_map.specs.DeclaredOptions.Shown.{check_named, takes_memory, takes_cores, takes_tables};

    /// No options, with the room for `MOST_OPTIONS`.
    pub fn make(alloc: Global) -> Result<Options, NoMemory>
        ensures { IfOk result (λ options. options ≡ []) }
    {
        let table = IndexMap::with_capacity(alloc, MOST_OPTIONS)?;
        let texts = Out::make(alloc, FEATURE_BYTES)?;
        Ok(Options {
            table,
            texts,
            size: 0,
        })
    }

    pub(crate) fn find(&self, name: &[u8]) -> Option<OptionSetting<'_>>
        ensures setting { option_map setting_seen result ≡ option_by_name name.now self.now }
        ensures range { IfSome result (λ s. IsRange (kind_seen s.kind)) }
    {
        find(&self.table, self.texts.bytes(), name)
    }

    /// Declares an option of an engine (UCI, `option name .. type ..`), which is shown in this style.
    pub fn declare(&mut self, msg: &OptionMsg, style: FeatureStyle) -> Declared
        ensures answer { result
            ≡ declaration_outcome style self.old msg.now.name.now (option_kind_of msg.now.kind) }
        ensures options { self.new
            ≡ after_declared style self.old msg.now.name.now (option_kind_of msg.now.kind) }
    {
        if is_unshowable(style, msg) {
            return Declared::Unshowable;
        }
        if self.find(msg.name).is_some() {
            return Declared::Double;
        }
        if self.table.len() >= MOST_OPTIONS {
            return Declared::Full;
        }
        let hidden = is_hidden(style.strength, msg.name);
        let feature = text_feature(style, msg.name);
        let Some(length) = shown_length(msg, hidden, feature, FEATURE_BYTES - self.size) else {
            return Declared::Full;
        };
        keep(&mut self.table, &mut self.texts, msg, hidden, feature);
        self.size += length;
        Declared::Done
    }

    /// The lengths of the texts that these options may give, for proofs alone. It changes nothing.
    pub fn facts(&self)
        ensures orders { AskedOrdersAreShort self.now }
        ensures features { length (features self.now) ≤ text_size self.now + length self.now }
    {
        // Read for the proof alone: the ranges of both are of 64 bits.
        let _hash = self.find(b"Hash");
        let _threads = self.find(b"Threads");
    }

    /// The number of declared options.
    pub fn count(&self) -> usize
        ensures count { result ≡ length self.now }
        ensures few { length self.now ≤ MOST_OPTIONS }
    {
        self.table.len()
    }

    /// The bytes of all feature lines, without line feeds.
    pub fn text(&self) -> usize
        ensures size { result ≡ text_size self.now }
        ensures short { text_size self.now ≤ FEATURE_BYTES }
    {
        self.size
    }

    /// Writes the feature line of each option that is not hidden, with a line feed each.
    pub fn write_features(&self, out: &mut Out)
        requires { length out.old.text + length (features self.now) ≤ out.old.room }
        ensures { out.new ≡ with out.old (features self.now) }
    {
        put_features(&self.table, self.texts.bytes(), out);
    }

    /// The declared spelling of a check option of this name. None if there is none.
    pub fn check_name(&self, name: &[u8]) -> Option<&[u8]>
        ensures { optional_now result ≡ check_named name.now self.now }
    {
        match self.find(name)? {
            OptionSetting {
                name,
                kind: SettingKind::Check(_),
                ..
            } => Some(name),
            _ => None,
        }
    }

    /// True if `Hash` is a declared spin.
    pub fn can_memory(&self) -> bool
        ensures { result ≡ takes_memory self.now }
    {
        is_spin(self.find(b"Hash"))
    }

    /// True if `Threads` is a declared spin.
    pub fn can_cores(&self) -> bool
        ensures { result ≡ takes_cores self.now }
    {
        is_spin(self.find(b"Threads"))
    }

    /// True if `NalimovPath` is a declared string.
    pub fn can_egt(&self) -> bool
        ensures { result ≡ takes_tables self.now }
    {
        is_text(self.find(b"NalimovPath"))
    }
}
