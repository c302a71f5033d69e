ghost use Rattle.std.specs.Prelude.{◌≡◌, IfOk, option_map};
ghost use Rattle.btr_text.specs.Word.{words_of};
ghost use Rattle.btr_text.specs.Form.{point_of, points_of, added_form, create_form, insert_form, delete_form};
ghost use Rattle.btr_text.specs.Form.{feed_form, flush_form, discard_form, retire_form};
ghost use Rattle.btr_text.specs.Form.{range_form, nearest_form, aligned_form, windows_form, changes_form, info_form};
ghost use Rattle.btr_text.specs.Form.{query_form, ask_form, streams_form, line_of};

use crate::cell_form::read_cell;
use crate::distiller_form::{read_distiller, read_refresh};
use crate::script::Line;
use crate::word::{next_word, read_at, read_id, read_power, read_toward, read_unsigned};
use btr_base::{Bag, Point, read_signed_decimal};
use btr_hist::StreamQuery;
use std::alloc::{AllocError, Global};

/// Returns the line that words say, or `None` if they fit no form.
pub fn read_form(alloc: Global, words: &[u8]) -> Result<Option<Line>, AllocError>
    ensures { IfOk result (λ l. l ≡ line_of (words_of words.now)) }
{
    let Some((name, rest)) = next_word(words) else {
        return Ok(None);
    };
    if name == b"create".as_slice() {
        Ok(read_create(rest))
    } else if name == b"insert".as_slice() {
        read_insert(alloc, rest)
    } else if name == b"delete".as_slice() {
        Ok(read_delete(rest))
    } else if name == b"feed".as_slice() {
        read_feed(alloc, rest)
    } else if name == b"flush".as_slice() {
        Ok(read_flush(rest))
    } else if name == b"discard".as_slice() {
        Ok(read_discard(rest))
    } else if name == b"distiller".as_slice() {
        Ok(read_distiller(rest))
    } else if name == b"cell".as_slice() {
        Ok(read_cell(rest))
    } else if name == b"refresh".as_slice() {
        Ok(read_refresh(rest))
    } else if name == b"retire".as_slice() {
        Ok(read_retire(rest))
    } else if name == b"streams".as_slice() {
        Ok(read_streams(rest))
    } else {
        Ok(read_ask(name, rest))
    }
}

/// Reads `create ID`, after its name.
fn read_create(words: &[u8]) -> Option<Line>
    ensures { result ≡ create_form (words_of words.now) }
{
    let (id, rest) = next_word(words)?;
    if let Some(_) = next_word(rest) {
        return None;
    }
    Some(Line::Create { id: read_id(id)? })
}

/// Reads `insert ID T V [T V ..]`, after its name.
fn read_insert(alloc: Global, words: &[u8]) -> Result<Option<Line>, AllocError>
    ensures { IfOk result (λ l. l ≡ insert_form (words_of words.now)) }
{
    let Some((id, added)) = read_added(alloc, words)? else {
        return Ok(None);
    };
    Ok(Some(Line::Insert { id, added }))
}

/// Reads `delete ID S E`, after its name.
fn read_delete(words: &[u8]) -> Option<Line>
    ensures { result ≡ delete_form (words_of words.now) }
{
    let (id, rest) = next_word(words)?;
    let (from, rest) = next_word(rest)?;
    let (to, rest) = next_word(rest)?;
    if let Some(_) = next_word(rest) {
        return None;
    }
    Some(Line::Delete {
        id: read_id(id)?,
        from: read_signed_decimal(from)?,
        to: read_signed_decimal(to)?,
    })
}

/// Reads `feed ID T V [T V ..]`, after its name.
fn read_feed(alloc: Global, words: &[u8]) -> Result<Option<Line>, AllocError>
    ensures { IfOk result (λ l. l ≡ feed_form (words_of words.now)) }
{
    let Some((id, added)) = read_added(alloc, words)? else {
        return Ok(None);
    };
    Ok(Some(Line::Feed { id, added }))
}

/// Reads `flush ID`, after its name.
fn read_flush(words: &[u8]) -> Option<Line>
    ensures { result ≡ flush_form (words_of words.now) }
{
    let (id, rest) = next_word(words)?;
    if let Some(_) = next_word(rest) {
        return None;
    }
    Some(Line::Flush { id: read_id(id)? })
}

/// Reads `discard ID`, after its name.
fn read_discard(words: &[u8]) -> Option<Line>
    ensures { result ≡ discard_form (words_of words.now) }
{
    let (id, rest) = next_word(words)?;
    if let Some(_) = next_word(rest) {
        return None;
    }
    Some(Line::Discard { id: read_id(id)? })
}

/// Reads `retire ID FIRST`, after its name.
fn read_retire(words: &[u8]) -> Option<Line>
    ensures { result ≡ retire_form (words_of words.now) }
{
    let (id, rest) = next_word(words)?;
    let (first, rest) = next_word(rest)?;
    if let Some(_) = next_word(rest) {
        return None;
    }
    Some(Line::Retire {
        id: read_id(id)?,
        first: read_unsigned(first)?,
    })
}

/// Reads `streams`, after its name.
fn read_streams(words: &[u8]) -> Option<Line>
    ensures { result ≡ streams_form (words_of words.now) }
{
    if let Some(_) = next_word(words) {
        return None;
    }
    Some(Line::Streams)
}

/// Reads a question of this name about one stream: the id, then the words of the question.
fn read_ask(name: &[u8], words: &[u8]) -> Option<Line>
    ensures { result ≡ ask_form name.now (words_of words.now) }
{
    let (id, rest) = next_word(words)?;
    Some(Line::Ask {
        id: read_id(id)?,
        query: read_query(name, rest)?,
    })
}

/// Returns the question of this name that words say, or `None` if there is no such name or they fit no form.
fn read_query(name: &[u8], words: &[u8]) -> Option<StreamQuery>
    ensures { result ≡ query_form name.now (words_of words.now) }
{
    if name == b"range".as_slice() {
        read_range(words)
    } else if name == b"nearest".as_slice() {
        read_nearest(words)
    } else if name == b"aligned".as_slice() {
        read_aligned(words)
    } else if name == b"windows".as_slice() {
        read_windows(words)
    } else if name == b"changes".as_slice() {
        read_changes(words)
    } else if name == b"info".as_slice() {
        read_info(words)
    } else {
        None
    }
}

/// Reads `range ID S E AT`, after its name and the id.
fn read_range(words: &[u8]) -> Option<StreamQuery>
    ensures { result ≡ range_form (words_of words.now) }
{
    let (from, rest) = next_word(words)?;
    let (to, rest) = next_word(rest)?;
    let (at, rest) = next_word(rest)?;
    if let Some(_) = next_word(rest) {
        return None;
    }
    Some(StreamQuery::Points {
        from: read_signed_decimal(from)?,
        to: read_signed_decimal(to)?,
        at: read_at(at)?,
    })
}

/// Reads `nearest ID T next AT` or `nearest ID T prev AT`, after its name and the id.
fn read_nearest(words: &[u8]) -> Option<StreamQuery>
    ensures { result ≡ nearest_form (words_of words.now) }
{
    let (time, rest) = next_word(words)?;
    let (toward, rest) = next_word(rest)?;
    let (at, rest) = next_word(rest)?;
    if let Some(_) = next_word(rest) {
        return None;
    }
    Some(StreamQuery::Nearest {
        time: read_signed_decimal(time)?,
        toward: read_toward(toward)?,
        at: read_at(at)?,
    })
}

/// Reads `aligned ID S E P AT`, after its name and the id.
fn read_aligned(words: &[u8]) -> Option<StreamQuery>
    ensures { result ≡ aligned_form (words_of words.now) }
{
    let (from, rest) = next_word(words)?;
    let (to, rest) = next_word(rest)?;
    let (power, rest) = next_word(rest)?;
    let (at, rest) = next_word(rest)?;
    if let Some(_) = next_word(rest) {
        return None;
    }
    Some(StreamQuery::Aligned {
        from: read_signed_decimal(from)?,
        to: read_signed_decimal(to)?,
        p: read_power(power)?,
        at: read_at(at)?,
    })
}

/// Reads `windows ID S E W AT`, after its name and the id.
fn read_windows(words: &[u8]) -> Option<StreamQuery>
    ensures { result ≡ windows_form (words_of words.now) }
{
    let (from, rest) = next_word(words)?;
    let (to, rest) = next_word(rest)?;
    let (width, rest) = next_word(rest)?;
    let (at, rest) = next_word(rest)?;
    if let Some(_) = next_word(rest) {
        return None;
    }
    Some(StreamQuery::Windows {
        from: read_signed_decimal(from)?,
        to: read_signed_decimal(to)?,
        width: read_unsigned(width)?,
        at: read_at(at)?,
    })
}

/// Reads `changes ID V1 V2 P`, after its name and the id.
fn read_changes(words: &[u8]) -> Option<StreamQuery>
    ensures { result ≡ changes_form (words_of words.now) }
{
    let (old, rest) = next_word(words)?;
    let (new, rest) = next_word(rest)?;
    let (power, rest) = next_word(rest)?;
    if let Some(_) = next_word(rest) {
        return None;
    }
    Some(StreamQuery::Changes {
        old: read_unsigned(old)?,
        new: read_unsigned(new)?,
        p: read_power(power)?,
    })
}

/// Reads `info ID AT`, after its name and the id.
fn read_info(words: &[u8]) -> Option<StreamQuery>
    ensures { result ≡ info_form (words_of words.now) }
{
    let (at, rest) = next_word(words)?;
    if let Some(_) = next_word(rest) {
        return None;
    }
    Some(StreamQuery::Info { at: read_at(at)? })
}

/// Reads `ID T V [T V ..]`: an id, and at least one point. The points are then in order.
fn read_added(alloc: Global, words: &[u8]) -> Result<Option<(u128, Bag)>, AllocError>
    ensures { IfOk result (λ a. a ≡ added_form (words_of words.now)) }
{
    let Some((id, rest)) = next_word(words) else {
        return Ok(None);
    };
    let Some(id) = read_id(id) else {
        return Ok(None);
    };
    let Some(_) = next_word(rest) else {
        return Ok(None);
    };
    let Some(points) = read_points(alloc, rest)? else {
        return Ok(None);
    };
    Ok(Some((id, Bag::from_points(points))))
}

/// Reads points: a time and a value each. Returns `None` if a word is no number or the last time has no value.
fn read_points(alloc: Global, words: &[u8]) -> Result<Option<Vec<Point>>, AllocError>
    ensures { IfOk result (λ o. option_map (λ v. v.items) o ≡ points_of (words_of words.now)) }
{
    let mut points = Vec::new(alloc);
    let mut rest = words;
    while let Some((time, after)) = next_word(rest) {
        let Some((value, after)) = next_word(after) else {
            return Ok(None);
        };
        let Some(point) = read_point(time, value) else {
            return Ok(None);
        };
        points.push(point)?;
        rest = after;
    }
    Ok(Some(points))
}

/// Reads a point from a time and a value.
fn read_point(time: &[u8], value: &[u8]) -> Option<Point>
    ensures { result ≡ point_of time.now value.now }
{
    Some(Point {
        time: read_signed_decimal(time)?,
        value: read_signed_decimal(value)?,
    })
}
