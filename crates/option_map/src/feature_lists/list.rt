// The list of features.
ghost use Rattle.std.specs.Prelude.{◌≡◌, ◌≤◌, ◌+◌, ◌∷◌, [], length, codes};
ghost use Rattle.line_io.specs.Out.{with};
ghost use Rattle.cecp_lines.specs.Replies.{Feature};
ghost use Rattle.option_map.specs.FeatureLists.Features.{shown_name, in_quotes, bit, fixed_features, tables, by_options, feature_list, reply_line, reply_lines};
ghost use Rattle.option_map.specs.declared.feature_lists.list.TheConstants.{MOST_NAME};

use crate::Options;
use line_io::Out;

/// The longest name of an engine that is shown.
pub const MOST_NAME: usize = 256;

// The greatest length of the list beside what it says of the options.
const COMMON_BYTES: usize = 1_000;

/// The name that is shown of an engine: what it said last, or `UCI engine` if it said nothing or a name
/// that is empty, has more than `MOST_NAME` bytes or holds a quote.
pub fn shown_name(said: &[u8]) -> &[u8]
    ensures name { result.now ≡ shown_name said.now }
    ensures short { length result.now ≤ MOST_NAME }
{
    if said.is_empty() || said.len() > MOST_NAME || said.contains(&b'"') {
        b"UCI engine"
    } else {
        said
    }
}

fn put_name(name: &[u8], out: &mut Out)
    requires { length out.old.text
        + length (reply_line (Feature (codes "myname") (in_quotes name.now))) ≤ out.old.room }
    ensures { out.new ≡ with out.old (reply_line (Feature (codes "myname") (in_quotes name.now))) }
{
    out.put(b"feature myname=\"");
    out.put(name);
    out.put(b"\"\n");
}

fn put_fixed(out: &mut Out)
    requires { length out.old.text + length (reply_lines fixed_features) ≤ out.old.room }
    ensures { out.new ≡ with out.old (reply_lines fixed_features) }
{
    out.put(
        b"feature ping=1\nfeature setboard=1\nfeature playother=1\nfeature san=0\nfeature usermove=1\nfeature time=1\nfeature draw=1\nfeature sigint=0\nfeature sigterm=0\nfeature reuse=1\nfeature analyze=1\nfeature variants=\"normal\"\nfeature colors=0\n",
    );
}

fn put_memory(can: bool, out: &mut Out)
    requires { length out.old.text + length (reply_line (Feature (codes "memory") (bit can)))
        ≤ out.old.room }
    ensures { out.new ≡ with out.old (reply_line (Feature (codes "memory") (bit can))) }
{
    if can {
        out.put(b"feature memory=1\n");
    } else {
        out.put(b"feature memory=0\n");
    }
}

fn put_cores(can: bool, out: &mut Out)
    requires { length out.old.text + length (reply_line (Feature (codes "smp") (bit can)))
        ≤ out.old.room }
    ensures { out.new ≡ with out.old (reply_line (Feature (codes "smp") (bit can))) }
{
    if can {
        out.put(b"feature smp=1\n");
    } else {
        out.put(b"feature smp=0\n");
    }
}

fn put_tables(can: bool, out: &mut Out)
    requires { length out.old.text + length (reply_lines (tables can)) ≤ out.old.room }
    ensures { out.new ≡ with out.old (reply_lines (tables can)) }
{
    if can {
        out.put(b"feature egt=\"nalimov\"\n");
    }
}

fn put_by_options(options: &Options, out: &mut Out)
    requires { length out.old.text + length (reply_lines (by_options options.now)) ≤ out.old.room }
    ensures { out.new ≡ with out.old (reply_lines (by_options options.now)) }
{
    put_memory(options.can_memory(), out);
    put_cores(options.can_cores(), out);
    put_tables(options.can_egt(), out);
}

/// Writes the list of features, a line each with its line feed. The name is the last that the engine said, or
/// empty.
pub fn write_list(options: &Options, name: &[u8], out: &mut Out)
    requires { length out.old.text + length (reply_lines (feature_list options.now name.now))
        ≤ out.old.room }
    ensures { out.new ≡ with out.old (reply_lines (feature_list options.now name.now)) }
{
    put_name(shown_name(name), out);
    put_fixed(out);
    put_by_options(options, out);
    options.write_features(out);
    out.put(b"feature done=1\n");
}

/// Writes the list of features when no options count as declared.
pub fn write_bare_list(name: &[u8], out: &mut Out)
    requires { length out.old.text + length (reply_lines (feature_list [] name.now))
        ≤ out.old.room }
    ensures { out.new ≡ with out.old (reply_lines (feature_list [] name.now)) }
{
    put_name(shown_name(name), out);
    put_fixed(out);
    put_memory(false, out);
    put_cores(false, out);
    out.put(b"feature done=1\n");
}
