// The interface's lines that set options of the engine, and line feeds in values.
ghost use Rattle.std.specs.Prelude.{◌≡◌, ◌++◌, OnOk, IfOk, is_some, map, option_map};
ghost use Rattle.std.specs.List.{list_any, flat_map};
ghost use Rattle.line_io.specs.Event.{has_feed};
ghost use Rattle.bridge_command_line.specs.Values.{all_values};
ghost use Rattle.bridge_command_line.specs.WineravineArguments.{cecp_option_line};

use std::alloc::{AllocError, Global};

fn put_line(lines: &mut Vec<u8>, option: &str) -> Result<(), AllocError>
    ensures { OnOk result (lines.new.items ≡ lines.old.items ++ cecp_option_line option.now) }
{
    lines.extend_from_slice(b"option ")?;
    lines.extend_from_slice(option.as_bytes())?;
    lines.extend_from_slice(b"\n")
}

// The lines that set these options, in this order.
fn option_lines(alloc: Global, options: &[&str]) -> Result<Vec<u8>, AllocError>
    ensures { IfOk result (λ v. v.items ≡ flat_map cecp_option_line (map (λ s. s.now)
        options.now)) }
{
    let mut lines: Vec<u8> = Vec::new(alloc);
    for option in options {
        put_line(&mut lines, option)?;
    }
    Ok(lines)
}

/// The same, if there are any.
pub(crate) fn lines_setting(alloc: Global, options: Option<&[&str]>) -> Result<Vec<u8>, AllocError>
    ensures { IfOk result (λ v. v.items ≡ flat_map cecp_option_line
        (all_values (option_map (λ v. map (λ s. s.now) v.now) options.entry))) }
{
    let Some(options) = options else {
        return Ok(Vec::new(alloc));
    };
    option_lines(alloc, options)
}

/// True if the text has a line feed.
pub(crate) fn has_feed(text: &str) -> bool
    ensures { result ≡ has_feed text.now }
{
    text.as_bytes().contains(&b'\n')
}

// The first of the texts that has a line feed.
fn text_with_feed<'a>(texts: &[&'a str]) -> Option<&'a str>
    ensures { is_some result ≡ list_any has_feed (map (λ s. s.now) texts.now) }
{
    for text in texts {
        if has_feed(text) {
            return Some(text);
        }
    }
    None
}

/// The same, if there are any texts.
pub(crate) fn any_with_feed<'a>(texts: Option<&[&'a str]>) -> Option<&'a str>
    ensures { is_some result
        ≡ list_any has_feed (all_values (option_map (λ v. map (λ s. s.now) v.now) texts.entry)) }
{
    text_with_feed(texts?)
}
