// The canonical spelling of a message.
ghost use Rattle.std.specs.Prelude.{◌≡◌, ◌+◌, ◌*◌, ◌<◌, ◌≤◌, ◌^◌, ◌++◌, codes, length, decimal, IfSome};
ghost use Rattle.std.specs.Fmt.{signed_decimal};
ghost use Rattle.std.specs.Option.{option_map};
ghost use Rattle.line_io.specs.Out.{with};
ghost use Rattle.protocol_tokens.specs.Numbers.{seconds_text, three_digits};
ghost use Rattle.cecp_lines.specs.Messages.{message_of};
ghost use Rattle.cecp_lines.specs.Messages as says;
ghost use Rattle.chess_board.specs.Text.{text_of_move};
ghost use Rattle.cecp_lines.specs.Reading.{CanBeRead};
ghost use Rattle.cecp_lines.specs.Replies.{IsWritable};
ghost use Rattle.cecp_engine_lines.specs.Texts.{message_text, after_blank, two_digits_of, bare_word_text, base_text, option_value_text};
ghost use Rattle.protocol_tokens.specs.Bytes.{digit_zero};

use cecp_lines::IfaceMsg;
use chess_board::{Move, write_move};
use itoa::Buffer;
use line_io::Out;
use protocol_tokens::{MINUTE, SECOND};

fn put_number(n: u64, out: &mut Out)
    requires { length out.old.text + length (decimal n) ≤ out.old.room }
    ensures { out.new ≡ with out.old (decimal n) }
{
    let mut digits = Buffer::new();
    out.put(digits.format(n).as_bytes());
}

/// A word and a clock.
fn put_clock(word: &[u8], n: i64, out: &mut Out)
    requires { length out.old.text + length (word.now ++ signed_decimal n) ≤ out.old.room }
    ensures { out.new ≡ with out.old (word.now ++ signed_decimal n) }
{
    let mut digits = Buffer::new();
    out.put(word);
    out.put(digits.format(n).as_bytes());
}

/// A word and a number.
fn put_counted(word: &[u8], n: u32, out: &mut Out)
    requires { length out.old.text + length (word.now ++ decimal n) ≤ out.old.room }
    ensures { out.new ≡ with out.old (word.now ++ decimal n) }
{
    out.put(word);
    put_number(u64::from(n), out);
}

/// A word and a move.
fn put_move(word: &[u8], m: Move, out: &mut Out)
    requires writable { IsWritable m }
    requires room { length out.old.text + length (word.now ++ text_of_move m) ≤ out.old.room }
    ensures { out.new ≡ with out.old (word.now ++ text_of_move m) }
{
    out.put(word);
    out.put(write_move(m).as_slice());
}

/// The ASCII digit of a number below 10.
fn digit(n: u64) -> u8
    requires { n < 10 }
    ensures { result ≡ digit_zero + n }
{
    b'0' + n as u8
}

fn put_seconds(ms: u64, out: &mut Out)
    requires { length out.old.text + length (seconds_text ms) ≤ out.old.room }
    ensures { out.new ≡ with out.old (seconds_text ms) }
{
    put_number(ms / SECOND, out);
    let part = ms % SECOND;
    if part != 0 {
        out.put(&[
            b'.',
            digit(part / 100),
            digit(part / 10 % 10),
            digit(part % 10),
        ]);
    }
}

fn put_base(ms: u64, out: &mut Out)
    requires { length out.old.text + length (base_text ms) ≤ out.old.room }
    ensures { out.new ≡ with out.old (base_text ms) }
{
    put_number(ms / MINUTE, out);
    let seconds = ms / SECOND % 60;
    if seconds != 0 {
        out.put(&[b':', digit(seconds / 10), digit(seconds % 10)]);
    }
}

fn put_after_blank(text: &[u8], out: &mut Out)
    requires { length out.old.text + length (after_blank text.now) ≤ out.old.room }
    ensures { out.new ≡ with out.old (after_blank text.now) }
{
    if !text.is_empty() {
        out.put(b" ");
        out.put(text);
    }
}

fn put_level(mps: u32, base_ms: u64, inc_ms: u64, out: &mut Out)
    requires { length out.old.text + length (message_text (says.Level mps base_ms inc_ms))
        ≤ out.old.room }
    ensures { out.new ≡ with out.old (message_text (says.Level mps base_ms inc_ms)) }
{
    put_counted(b"level ", mps, out);
    out.put(b" ");
    put_base(base_ms, out);
    out.put(b" ");
    put_seconds(inc_ms, out);
}

fn put_setting(name: &[u8], value: Option<&[u8]>, out: &mut Out)
    requires { length out.old.text + length (message_text
        (says.SetOption name.now (option_map (λ v. v.now) value))) ≤ out.old.room }
    ensures { out.new ≡ with out.old (message_text
        (says.SetOption name.now (option_map (λ v. v.now) value.entry))) }
{
    out.put(b"option ");
    out.put(name);
    if let Some(text) = value {
        out.put(b"=");
        out.put(text);
    }
}

fn put_egt_path(kind: &[u8], path: &[u8], out: &mut Out)
    requires { length out.old.text + length (message_text (says.EgtPath kind.now path.now))
        ≤ out.old.room }
    ensures { out.new ≡ with out.old (message_text (says.EgtPath kind.now path.now)) }
{
    out.put(b"egtpath ");
    out.put(kind);
    out.put(b" ");
    out.put(path);
}

/// The word of a message without arguments, and nothing for the others.
fn bare_word(msg: &IfaceMsg) -> &'static [u8]
    ensures { result.now ≡ bare_word_text (message_of msg.now) }
{
    match msg {
        IfaceMsg::New => b"new",
        IfaceMsg::Quit => b"quit",
        IfaceMsg::Force => b"force",
        IfaceMsg::Go => b"go",
        IfaceMsg::PlayOther => b"playother",
        IfaceMsg::MoveNow => b"?",
        IfaceMsg::Draw => b"draw",
        IfaceMsg::Hint => b"hint",
        IfaceMsg::Undo => b"undo",
        IfaceMsg::Remove => b"remove",
        IfaceMsg::Hard => b"hard",
        IfaceMsg::Easy => b"easy",
        IfaceMsg::Post => b"post",
        IfaceMsg::NoPost => b"nopost",
        IfaceMsg::Analyze => b"analyze",
        IfaceMsg::Exit => b"exit",
        IfaceMsg::Dot => b".",
        IfaceMsg::Result => b"result",
        _ => b"",
    }
}

/// Writes the canonical spelling of a message, without a line feed: one blank between the parts.
pub fn write_iface(msg: &IfaceMsg, out: &mut Out)
    requires form { CanBeRead (message_of msg.now) }
    requires room { length out.old.text + length (message_text (message_of msg.now))
        ≤ out.old.room }
    ensures { out.new ≡ with out.old (message_text (message_of msg.now)) }
{
    match msg {
        IfaceMsg::Ignored(text) => out.put(text),
        IfaceMsg::Protover(n) => put_counted(b"protover ", *n, out),
        IfaceMsg::Ping(n) => put_counted(b"ping ", *n, out),
        IfaceMsg::UserMove(m) => put_move(b"usermove ", *m, out),
        IfaceMsg::SetBoard(text) => {
            out.put(b"setboard");
            put_after_blank(text, out);
        }
        IfaceMsg::Level {
            mps,
            base_ms,
            inc_ms,
        } => put_level(*mps, *base_ms, *inc_ms, out),
        IfaceMsg::St(ms) => {
            out.put(b"st ");
            put_seconds(*ms, out);
        }
        IfaceMsg::Sd(n) => put_counted(b"sd ", *n, out),
        IfaceMsg::Time(n) => put_clock(b"time ", *n, out),
        IfaceMsg::Otim(n) => put_clock(b"otim ", *n, out),
        IfaceMsg::SetOption { name, value } => put_setting(name, *value, out),
        IfaceMsg::Memory(n) => put_counted(b"memory ", *n, out),
        IfaceMsg::Cores(n) => put_counted(b"cores ", *n, out),
        IfaceMsg::EgtPath { kind, path } => put_egt_path(kind, path, out),
        _ => out.put(bare_word(msg)),
    }
}
