//! Two places whose streams one catalog cannot hold.

ghost use Rattle.std.specs.Prelude.{◌≡◌, ◌<◌, ◌≤◌, ℕ, None, false, IfSome, length};
ghost use Rattle.std.specs.List.{list_any};
ghost use Rattle.js_model.specs.Catalog.{catalog_of, meets_some};
ghost use Rattle.catalog.specs.Apart.{IsApart};
ghost use Rattle.catalog.specs.Conflicts.{IsFirstBehind, IsFirstConflict, conflict_at, conflicts};

use js_base::Blob;
use js_model::KeptPlace;
use subject_match::overlaps;

/// The first two places whose streams share a name or have subjects that meet: the lowest one that has such another behind it, and the lowest one of those.
/// If there are no such two, a catalog can begin with what the places kept.
pub fn first_conflict(kept: &[KeptPlace]) -> Option<(u32, u32)>
    requires few { length kept.now ≤ 32 }
    ensures found { IfSome result (λ pair. IsFirstConflict kept.now pair.0 pair.1) }
    ensures none { result ≡ None → IsApart (catalog_of kept.now) }
{
    for first in 0..kept.len() {
        if let Some(second) = conflict_behind(kept, first) {
            return Some((first as u32, second as u32));
        }
    }
    None
}

/// The first place behind this one whose stream shares a name with its stream or has a subject that meets one of its subjects.
fn conflict_behind(kept: &[KeptPlace], first: usize) -> Option<usize>
    requires within { first < length kept.now }
    ensures found { IfSome result (IsFirstBehind kept.now first) }
    ensures within { IfSome result (λ second. second < length kept.now) }
    ensures none { result ≡ None → (n : ℕ) → first < n → conflict_at kept.now first n ≡ false }
{
    for second in first + 1..kept.len() {
        if conflict(&kept[first], &kept[second]) {
            return Some(second);
        }
    }
    None
}

/// Whether the streams of two places share a name or have subjects that meet.
fn conflict(one: &KeptPlace, other: &KeptPlace) -> bool
    ensures value { result ≡ conflicts one.now.stream other.now.stream }
{
    let Some(one) = &one.stream else {
        return false;
    };
    let Some(other) = &other.stream else {
        return false;
    };
    one.0 == other.0 || meet(one.1.as_slice(), other.1.as_slice())
}

/// Whether a subject of the one list meets one of the other.
fn meet(subjects: &[Blob], others: &[Blob]) -> bool
    ensures value { result ≡ list_any (meets_some others.now) subjects.now }
{
    subjects
        .iter()
        .any(|subject| meets_some(others, subject.as_slice()))
}

/// Whether one of the subjects meets this one.
fn meets_some(subjects: &[Blob], subject: &[u8]) -> bool
    ensures value { result ≡ meets_some subjects.now subject.now }
{
    subjects
        .iter()
        .any(|other| overlaps(subject, other.as_slice()))
}
