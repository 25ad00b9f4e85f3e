//! Decoding values, arrays and tables at the front of a slice.

ghost use Rattle.std.specs.Prelude.{◌≡◌, ◌≤◌, ◌<◌, ◌↔◌, Some, true};
ghost use Rattle.std.specs.Prelude.{false, length, IfOk, IfSome, IsTrue};
ghost use Rattle.amqp_types.specs.Booleans.{judge_boolean};
ghost use Rattle.amqp_types.specs.ValueJudging.{filled, nested, judge_entry, judge_array};
ghost use Rattle.amqp_types.specs.ValueJudging.{judge_table, judge_behind, judge_value};
ghost use Rattle.amqp_canonical.specs.Judgements.{layout_at, layout_after_byte, IsShort, IsAbove};
ghost use Rattle.amqp_canonical.specs.Judgements.{IsBelow, MayRefuse, IsCanonicalBoolean};
ghost use Rattle.amqp_canonical.specs.Judgements.{IsCanonicalAfterTag, IsCanonicalValue};
ghost use Rattle.amqp_canonical.specs.Judgements.{AreCanonicalValues, AreCanonicalEntries};
ghost use Rattle.amqp_canonical.specs.Judgements.{IsCanonicalArray, IsCanonicalTable, Judges};
ghost use Rattle.amqp_canonical.specs.Judgements.{JudgesEntry, JudgesWhole};
ghost use Rattle.amqp_canonical.specs.Leads.{leading};

use crate::leads::{first_eight, next_two};
use crate::texts::short_text;
use amqp_types::{
    FieldTag, ParserError, TAG_BOOLEAN, TAG_BYTE_ARRAY, TAG_DECIMAL_VALUE, TAG_DOUBLE,
    TAG_FIELD_ARRAY, TAG_FIELD_TABLE, TAG_FLOAT, TAG_LONG_INT, TAG_LONG_LONG_INT,
    TAG_LONG_LONG_INT_READ, TAG_LONG_STRING, TAG_LONG_UINT, TAG_SHORT_INT, TAG_SHORT_INT_READ,
    TAG_SHORT_SHORT_INT, TAG_SHORT_SHORT_UINT, TAG_SHORT_UINT, TAG_TIMESTAMP, TAG_VOID,
    parse_long_bytes,
};
use std::cmp::Ordering;

/// What was decoded at the front of a slice: a value, an array or a table.
#[derive(Clone, Copy, Debug, PartialEq, Eq)]
pub struct ValueJudgement {
    /// How many bytes it uses.
    pub used: usize,

    /// Whether these bytes are its canonical bytes.
    pub canonical: bool,
}

/// How what stands after a tag is laid out.
#[derive(Clone, Copy)]
pub(crate) enum Layout {
    /// So many bytes, whatever they are.
    Fixed(usize),

    /// A truth value.
    OneBoolean,

    /// A length, and as many bytes.
    Counted,

    /// An array.
    Values,

    /// A table.
    Entries,
}

/// How what stands after this tag is laid out.
#[inline(always)]
pub(crate) fn layout_of(tag: FieldTag) -> Layout
    ensures is { result ≡ layout_at tag }
    ensures few { IsShort result }
{
    match tag {
        FieldTag::Void => Layout::Fixed(0),
        FieldTag::ShortShortInt | FieldTag::ShortShortUInt => Layout::Fixed(1),
        FieldTag::ShortInt | FieldTag::ShortUInt => Layout::Fixed(2),
        FieldTag::LongInt | FieldTag::LongUInt | FieldTag::Float => Layout::Fixed(4),
        FieldTag::DecimalValue => Layout::Fixed(5),
        FieldTag::LongLongInt | FieldTag::Double | FieldTag::Timestamp => Layout::Fixed(8),
        FieldTag::Boolean => Layout::OneBoolean,
        FieldTag::LongString | FieldTag::ByteArray => Layout::Counted,
        FieldTag::FieldArray => Layout::Values,
        FieldTag::FieldTable => Layout::Entries,
    }
}

/// What a tag byte says.
#[derive(Clone, Copy)]
pub(crate) struct TagByte {
    /// How what stands after it is laid out.
    pub(crate) layout: Layout,

    /// Whether it is the byte that is written for its tag.
    pub(crate) written: bool,
}

/// A tag byte that is written for its tag.
#[inline(always)]
fn written(layout: Layout) -> Option<TagByte>
    ensures { result ≡ Some (record { layout = layout; written = true }) }
{
    Some(TagByte {
        layout,
        written: true,
    })
}

/// A tag byte that is decoded alone: another one is written in its place.
#[inline(always)]
fn only_read(layout: Layout) -> Option<TagByte>
    ensures { result ≡ Some (record { layout = layout; written = false }) }
{
    Some(TagByte {
        layout,
        written: false,
    })
}

/// How what stands after a tag byte is laid out, and whether the byte is written for its tag: `U` and `L` are decoded,
/// and never written. None where the byte is no tag.
#[inline(always)]
pub(crate) fn layout_after(byte: u8) -> Option<TagByte>
    ensures is { result ≡ layout_after_byte byte }
    ensures few { IfSome result (λ tag. IsShort tag.layout) }
{
    match byte {
        TAG_VOID => written(Layout::Fixed(0)),
        TAG_SHORT_SHORT_INT | TAG_SHORT_SHORT_UINT => written(Layout::Fixed(1)),
        TAG_SHORT_INT | TAG_SHORT_UINT => written(Layout::Fixed(2)),
        TAG_SHORT_INT_READ => only_read(Layout::Fixed(2)),
        TAG_LONG_INT | TAG_LONG_UINT | TAG_FLOAT => written(Layout::Fixed(4)),
        TAG_DECIMAL_VALUE => written(Layout::Fixed(5)),
        TAG_LONG_LONG_INT | TAG_DOUBLE | TAG_TIMESTAMP => written(Layout::Fixed(8)),
        TAG_LONG_LONG_INT_READ => only_read(Layout::Fixed(8)),
        TAG_BOOLEAN => written(Layout::OneBoolean),
        TAG_LONG_STRING | TAG_BYTE_ARRAY => written(Layout::Counted),
        TAG_FIELD_ARRAY => written(Layout::Values),
        TAG_FIELD_TABLE => written(Layout::Entries),
        _ => None,
    }
}

/// Whether a key comes after the previous one, in the order of their bytes.
#[inline(never)]
fn is_key_above(key: &[u8], previous: &[u8]) -> bool
    ensures { IsTrue result ↔ IsBelow previous.now key.now }
{
    match previous.cmp(key) {
        Ordering::Less => true,
        _ => false,
    }
}

/// Whether a key comes after the previous one, by their first bytes where these differ. The first eight of each are given as a
/// number.
#[inline(always)]
fn is_above(lead: u64, key: &[u8], previous_lead: u64, previous: &[u8]) -> bool
    requires leads { (lead ≡ leading 8 key.now) × (previous_lead ≡ leading 8 previous.now) }
    ensures { IsTrue result ↔ IsBelow previous.now key.now }
{
    if previous_lead != lead {
        return previous_lead < lead;
    }
    let (more, previous_more) = (next_two(key), next_two(previous));
    if previous_more != more {
        return previous_more < more;
    }
    is_key_above(key, previous)
}

/// Whether a key comes after the previous one, where there is one.
#[inline(always)]
fn is_next(at: usize, lead: u64, key: &[u8], previous_lead: u64, previous: &[u8]) -> bool
    requires leads { (lead ≡ leading 8 key.now) × (previous_lead ≡ leading 8 previous.now) }
    ensures { IsAbove at previous.now key.now result }
{
    at == 0 || is_above(lead, key, previous_lead, previous)
}

/// Decodes a truth value.
fn judge_boolean(i: &[u8]) -> Result<ValueJudgement, ParserError>
    ensures judged { Judges IsCanonicalBoolean i.now result (judge_boolean i.now) }
    ensures used { IfOk result (λ w. w.used ≤ length i.now) }
{
    match i {
        [] => Err(ParserError::Incomplete),
        [byte, ..] => Ok(ValueJudgement {
            used: 1,
            canonical: *byte <= 1,
        }),
    }
}

/// Decodes a tag and its value, in which tables and arrays may nest `depth_left` deep (AMQP 0-9-1, section 4.2.5.5).
#[inline(always)]
#[cycle(judge)]
pub fn judge_value(i: &[u8], depth_left: usize) -> Result<ValueJudgement, ParserError>
    ensures judged { Judges IsCanonicalValue i.now result (judge_value depth_left i.now) }
    ensures used { IfOk result (λ w. (0 < w.used) × (w.used ≤ length i.now)) }
{
    match i {
        [] => Err(ParserError::Incomplete),
        [byte, rest @ ..] => match layout_after(*byte) {
            None => Err(ParserError::UnknownTag),
            Some(tag) => {
                let value = judge_after_tag(tag.layout, rest, depth_left)?;
                Ok(ValueJudgement {
                    used: 1 + value.used,
                    canonical: value.canonical & tag.written,
                })
            }
        },
    }
}

/// Decodes the value after a tag that is laid out so.
#[inline(always)]
#[cycle(judge)]
fn judge_after_tag(
    layout: Layout,
    i: &[u8],
    depth_left: usize,
) -> Result<ValueJudgement, ParserError>
    ensures judged { (tag : FieldTag) → layout_at tag ≡ layout
        → Judges IsCanonicalAfterTag i.now result (judge_behind (nested depth_left) tag i.now) }
    ensures used { IfOk result (λ w. w.used ≤ length i.now) }
{
    match layout {
        Layout::Fixed(n) => {
            if i.len() < n {
                return Err(ParserError::Incomplete);
            }
            Ok(ValueJudgement {
                used: n,
                canonical: true,
            })
        }
        Layout::OneBoolean => judge_boolean(i),
        Layout::Counted => {
            let (n, _) = parse_long_bytes(i)?;
            Ok(ValueJudgement {
                used: n,
                canonical: true,
            })
        }
        Layout::Values => {
            if depth_left == 0 {
                return Err(ParserError::TooDeep);
            }
            judge_array(i, depth_left - 1)
        }
        Layout::Entries => {
            if depth_left == 0 {
                return Err(ParserError::TooDeep);
            }
            judge_table(i, depth_left - 1)
        }
    }
}

/// Decodes an array, in whose values tables and arrays may nest `depth_left` deep.
#[inline(always)]
#[cycle(judge)]
pub fn judge_array(i: &[u8], depth_left: usize) -> Result<ValueJudgement, ParserError>
    ensures judged { Judges IsCanonicalArray i.now result
        (judge_array (judge_value depth_left) i.now) }
    ensures used { IfOk result (λ w. w.used ≤ length i.now) }
{
    let (n, content) = parse_long_bytes(i)?;
    let canonical = judge_values(content, depth_left)?;
    Ok(ValueJudgement { used: n, canonical })
}

/// Decodes a table, in whose values tables and arrays may nest `depth_left` deep (AMQP 0-9-1, section 4.2.5.5).
#[inline(always)]
#[cycle(judge)]
pub fn judge_table(i: &[u8], depth_left: usize) -> Result<ValueJudgement, ParserError>
    ensures judged { Judges IsCanonicalTable i.now result
        (judge_table (judge_value depth_left) i.now) }
    ensures used { IfOk result (λ w. w.used ≤ length i.now) }
{
    let (n, content) = parse_long_bytes(i)?;
    let canonical = judge_entries(content, depth_left)?;
    Ok(ValueJudgement { used: n, canonical })
}

/// Decodes the values that fill an array, and returns whether these are their canonical bytes. Tables and arrays may nest
/// `depth_left` deep in them.
#[inline(never)]
#[cycle(judge)]
pub fn judge_values(content: &[u8], depth_left: usize) -> Result<bool, ParserError>
    ensures { JudgesWhole AreCanonicalValues content.now result
        (filled (judge_value depth_left) 0 content.now) }
{
    let mut canonical = true;
    let mut at = 0;
    while at < content.len() {
        let item = match judge_value(&content[at..], depth_left) {
            Ok(item) => item,
            Err(error) => return Err(error.inside()),
        };
        canonical = canonical & item.canonical;
        at += item.used;
    }
    Ok(canonical)
}

/// Decodes the entries that fill a table, and returns whether these are their canonical bytes and in ascending key
/// order.
#[inline(never)]
#[cycle(judge)]
pub fn judge_entries(content: &[u8], depth_left: usize) -> Result<bool, ParserError>
    ensures { JudgesWhole AreCanonicalEntries content.now result
        (filled (judge_entry (judge_value depth_left)) 0 content.now) }
{
    let mut previous: &[u8] = &[];
    let mut previous_lead = 0;
    let mut canonical = true;
    let mut at = 0;
    while canonical && at < content.len() {
        let (item, key) = match judge_entry(&content[at..], depth_left) {
            Ok(found) => found,
            Err(error) => return Err(error.inside()),
        };
        let lead = first_eight(key);
        canonical = item.canonical & is_next(at, lead, key, previous_lead, previous);
        previous = key;
        previous_lead = lead;
        at += item.used;
    }
    // Where one is not canonical, the others are decoded alone, and their keys are not compared.
    while at < content.len() {
        at += match judge_entry(&content[at..], depth_left) {
            Ok((item, _)) => item.used,
            Err(error) => return Err(error.inside()),
        };
    }
    Ok(canonical)
}

/// Decodes a key and its value, and borrows the key.
#[inline(always)]
#[cycle(judge)]
fn judge_entry(i: &[u8], depth_left: usize) -> Result<(ValueJudgement, &[u8]), ParserError>
    ensures judged { JudgesEntry (λ key. key.now) i.now result
        (judge_entry (judge_value depth_left) i.now) }
    ensures used { IfOk result (λ found. (0 < found.0.used) × (found.0.used ≤ length i.now)) }
{
    let (n, key) = short_text(i)?;
    let value = judge_value(&i[n..], depth_left)?;
    Ok((
        ValueJudgement {
            used: n + value.used,
            canonical: value.canonical,
        },
        key,
    ))
}
