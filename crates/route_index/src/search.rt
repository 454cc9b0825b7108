//! The search for the patterns that match a subject, or overlap with a pattern.
//!
//! The patterns stand in the order of their texts, so all that begin with the same tokens stand side by side, as under one branch of a tree.
//! The search goes down from branch to branch: by the token, by `*`, and by `>` at the end. For the overlaps of a pattern it goes down by each
//! branch at a `*`, and takes all that is left at a last `>`. Subscriptions that do not match cost a few steps in an ordered map.

ghost use Rattle.std.specs.Prelude.{◌≡◌, ◌++◌, map, OnOk};
ghost use Rattle.route_index.specs.Searching.{AddsUnder, AddsBelow, AddsEach, AddsAll, AddsFitting, IsDotless, AreDotless};

use crate::beneath::{Piece, pieces_beneath};
use crate::ids::{Ids, begins_some, push_ids};
use crate::pattern::Pattern;
use crate::seek::Seek;
use js_base::NoMemory;
use std::alloc::Global;

/// Where is sought, and what.
#[derive(Clone, Copy)]
pub(crate) struct Query<'a> {
    pub(crate) ids: &'a Ids,
    pub(crate) alloc: Global,
    pub(crate) seek: Seek,
}

/// Adds the numbers under the pattern that the path and a last piece make, and leaves the path.
fn take_under(
    ids: &Ids,
    path: &mut Pattern,
    piece: &[u8],
    found: &mut Vec<u64>,
) -> Result<(), NoMemory>
    ensures path { OnOk result (path.new ≡ path.old) }
    ensures found { OnOk result (AddsUnder ids.now (path.old ++ piece.now) found.old.items found.new.items) }
{
    let front = path.len();
    path.put(piece)?;
    push_ids(ids, path, found)?;
    path.cut(front);
    Ok(())
}

/// Adds the numbers under all patterns that begin with the path, and leaves the path.
fn take_all(query: &Query<'_>, path: &mut Pattern, found: &mut Vec<u64>) -> Result<(), NoMemory>
    ensures path { OnOk result (path.new ≡ path.old) }
    ensures found { OnOk result (AddsAll query.now.ids.now path.old found.old.items found.new.items) }
{
    let texts = pieces_beneath(query.ids, query.alloc, path, Piece::Text)?;
    for text in texts.as_slice() {
        take_under(query.ids, path, text, found)?;
    }
    Ok(())
}

/// Goes down by a token: adds the numbers under the patterns that the path, the token and patterns for the other tokens make.
#[cycle(search)]
fn go_down(
    query: &Query<'_>,
    path: &mut Pattern,
    token: &[u8],
    others: &[&[u8]],
    found: &mut Vec<u64>,
) -> Result<(), NoMemory>
    requires token { IsDotless token.now }
    requires others { AreDotless (map (λ part. part.now) others.now) }
    ensures path { OnOk result (path.new ≡ path.old) }
    ensures found { OnOk result (AddsBelow query.now.seek query.now.ids.now path.old token.now (map (λ part. part.now) others.now) found.old.items found.new.items) }
{
    if others.is_empty() {
        return take_under(query.ids, path, token, found);
    }
    let front = path.len();
    path.put(token)?;
    path.put(b".")?;
    if begins_some(query.ids, path) {
        search(query, path, others, found)?;
    }
    path.cut(front);
    Ok(())
}

/// Goes down by each token that follows the path in a pattern.
#[cycle(search)]
fn go_down_each(
    query: &Query<'_>,
    path: &mut Pattern,
    others: &[&[u8]],
    found: &mut Vec<u64>,
) -> Result<(), NoMemory>
    requires others { AreDotless (map (λ part. part.now) others.now) }
    ensures path { OnOk result (path.new ≡ path.old) }
    ensures found { OnOk result (AddsEach query.now.seek query.now.ids.now path.old (map (λ part. part.now) others.now) found.old.items found.new.items) }
{
    let tokens = pieces_beneath(query.ids, query.alloc, path, Piece::Token)?;
    for token in tokens.as_slice() {
        go_down(query, path, token, others, found)?;
    }
    Ok(())
}

/// Adds the numbers under the patterns that the path and patterns for these tokens make.
#[cycle(search)]
pub(crate) fn search(
    query: &Query<'_>,
    path: &mut Pattern,
    tokens: &[&[u8]],
    found: &mut Vec<u64>,
) -> Result<(), NoMemory>
    requires { AreDotless (map (λ part. part.now) tokens.now) }
    ensures path { OnOk result (path.new ≡ path.old) }
    ensures found { OnOk result (AddsFitting query.now.seek query.now.ids.now path.old (map (λ part. part.now) tokens.now) found.old.items found.new.items) }
{
    let Some((token, others)) = tokens.split_first() else {
        return Ok(());
    };
    if query.seek.takes_all(*token, others) {
        return take_all(query, path, found);
    }
    take_under(query.ids, path, b">", found)?;
    if query.seek.takes_each(*token) {
        return go_down_each(query, path, others, found);
    }
    go_down(query, path, b"*", others, found)?;
    if *token == b"*".as_slice() {
        return Ok(());
    }
    go_down(query, path, *token, others, found)
}
