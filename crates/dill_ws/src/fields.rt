ghost use Rattle.std.specs.Prelude.{◌≡◌, ◌<◌, ◌≤◌, ◌-◌, ◌∷◌, [], true, length, map, nat_lt, option_map, IfSome, IfNone, is_some, bytes_eq};
ghost use Rattle.std.specs.List.{list_any, prefix_len, suffix_len};
ghost use Rattle.dill_http.specs.Bytes.{is_blank};
ghost use Rattle.dill_ws.specs.HeadLines.{lines_at};
ghost use Rattle.dill_ws.specs.Offers.{same_word, bare, lists_item, value_under, named, only, has_field, has_item, are_fields};

use crate::line::first_line;
use dill_http::read_field;

/// A field's value, and the lines behind the field.
#[derive(Clone, Copy, Debug)]
pub struct Found<'a> {
    pub value: &'a [u8],
    pub rest: &'a [u8],
}

/// The first field with this name, from here on.
pub fn next_field<'a>(lines: &'a [u8], name: &[u8]) -> Option<Found<'a>>
    ensures none { IfNone result (named name.now (lines_at lines.now) ≡ []) }
    ensures some { IfSome result (λ f. named name.now (lines_at lines.now) ≡ f.value.now ∷ named name.now (lines_at f.rest.now)) }
    ensures less { IfSome result (λ f. length f.rest.now < length lines.now) }
{
    let mut rest = lines;
    while let Some(line) = first_line(rest) {
        if let Some(value) = value_under(line.text, name) {
            return Some(Found {
                value,
                rest: line.rest,
            });
        }
        rest = line.rest;
    }
    None
}

/// Is there a field with this name?
pub fn has_field(lines: &[u8], name: &[u8]) -> bool
    ensures { result ≡ has_field name.now (lines_at lines.now) }
{
    match next_field(lines, name) {
        Some(_) => true,
        None => false,
    }
}

/// Does a field with this name list the word?
pub fn has_item(lines: &[u8], name: &[u8], word: &[u8]) -> bool
    ensures { result ≡ has_item name.now word.now (lines_at lines.now) }
{
    let mut rest = lines;
    while let Some(field) = next_field(rest, name) {
        if lists_item(field.value, word) {
            return true;
        }
        rest = field.rest;
    }
    false
}

/// The value of the one field with this name, where there is one and no other.
pub fn only_value<'a>(lines: &'a [u8], name: &[u8]) -> Option<&'a [u8]>
    ensures { option_map (λ v. v.now) result ≡ only (named name.now (lines_at lines.now)) }
{
    let field = next_field(lines, name)?;
    if has_field(field.rest, name) {
        None
    } else {
        Some(field.value)
    }
}

/// Is each line a field line?
pub fn are_fields(lines: &[u8]) -> bool
    ensures { result ≡ are_fields (lines_at lines.now) }
{
    let mut rest = lines;
    while let Some(line) = first_line(rest) {
        if read_field(line.text).is_none() {
            return false;
        }
        rest = line.rest;
    }
    true
}

fn value_under<'a>(line: &'a [u8], name: &[u8]) -> Option<&'a [u8]>
    ensures { option_map (λ v. v.now) result ≡ value_under name.now line.now }
{
    let cut = read_field(line)?;
    let own = &line[cut.first.from..cut.first.to];
    if same_word(own, name) {
        Some(&line[cut.second.from..cut.second.to])
    } else {
        None
    }
}

// Is one of the items that commas part this word?
fn lists_item(value: &[u8], word: &[u8]) -> bool
    ensures { result ≡ lists_item word.now value.now }
{
    value
        .split(|byte| *byte == b',')
        .any(|item| same_word(bare(item), word))
}

// Without the spaces and TABs round it.
fn bare(item: &[u8]) -> &[u8]
    ensures { result.now ≡ bare item.now }
{
    let start = blank_count(item);
    let rest = &item[start..];
    &rest[..bare_length(rest)]
}

// How many spaces and TABs stand in front.
fn blank_count(item: &[u8]) -> usize
    ensures count { result ≡ prefix_len is_blank item.now }
    ensures within { result ≤ length item.now }
{
    item.iter().take_while(|byte| is_blank(**byte)).count()
}

// How long it is without the spaces and TABs at its end.
fn bare_length(item: &[u8]) -> usize
    ensures count { result ≡ length item.now - suffix_len is_blank item.now }
    ensures within { result ≤ length item.now }
{
    let mut end = item.len();
    while 0 < end && is_blank(item[end - 1]) {
        end -= 1;
    }
    end
}

fn is_blank(byte: u8) -> bool
    ensures { result ≡ is_blank byte }
{
    byte == b' ' || byte == b'\t'
}

// Equal but for the case of letters?
fn same_word(a: &[u8], b: &[u8]) -> bool
    ensures { result ≡ same_word a.now b.now }
{
    a.eq_ignore_ascii_case(b)
}
