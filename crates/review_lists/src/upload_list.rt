//! The uploads with what became of each.
ghost use Rattle.std.specs.Prelude.{◌≡◌, ◌++◌, length, map, flat_map, not, IfOk, OnOk};
ghost use Rattle.replay_folder.specs.Names.{named_name};
ghost use Rattle.review_lists.specs.Attention.{was_taken};
ghost use Rattle.review_lists.specs.UploadList.{upload_entry, more_than, untaken_places, taken_places, listed_uploads, upload_list};

use crate::attention::was_taken;
use crate::words::upload_words;
use itoa::Buffer;
use page_tree::NoMemory;
use replay_folder::{Named, ToldUploads, UploadEnd};
use review_pieces::pieces;
use review_state::page_of;
use std::alloc::Global;

/// How many are shown.
const MOST_UPLOADS: usize = 200;

/// Adds them, those that weren't taken first.
#[tactic(auto, unfolding(crate::specs::UploadList::upload_list))]
pub(crate) fn add_upload_list(
    alloc: Global,
    out: &mut Vec<u8>,
    told: &ToldUploads,
) -> Result<(), NoMemory>
    ensures { OnOk result (out.new.items ≡ out.old.items ++ upload_list told.now) }
{
    let ends = told.ends.as_slice();
    let mut items = Vec::new(alloc);
    let refused = add_listed(alloc, &mut items, told)?;
    add_more_than(&mut items, MOST_UPLOADS, ends.len())?;
    let mut count = Buffer::new();
    let mut untaken = Buffer::new();
    pieces::add_uploads(
        out,
        count.format(ends.len()),
        untaken.format(refused),
        items.as_slice(),
    )
}

// The entries, and how many uploads weren't taken.
fn add_listed(alloc: Global, out: &mut Vec<u8>, told: &ToldUploads) -> Result<usize, NoMemory>
    ensures entries { OnOk result (out.new.items ≡ out.old.items
        ++ flat_map (upload_entry told.now) (listed_uploads told.now.ends)) }
    ensures untaken { IfOk result (λ count. count ≡ length (untaken_places told.now.ends)) }
{
    let ends = told.ends.as_slice();
    let untaken = page_of(
        alloc,
        untaken_marks(alloc, ends)?.as_slice(),
        0,
        MOST_UPLOADS,
    )?;
    let room = MOST_UPLOADS.saturating_sub(untaken.places.len());
    let taken = page_of(alloc, taken_marks(alloc, ends)?.as_slice(), 0, room)?;
    add_uploads_at(alloc, out, told, untaken.places.as_slice())?;
    add_uploads_at(alloc, out, told, taken.places.as_slice())?;
    Ok(untaken.count)
}

fn untaken_marks(alloc: Global, ends: &[UploadEnd]) -> Result<Vec<bool>, NoMemory>
    ensures { IfOk result (λ marks. marks.items ≡ map (λ end. not (was_taken end)) ends.now) }
{
    let mut marks = Vec::with_capacity(alloc, ends.len())?;
    for end in ends {
        marks.push(!was_taken(end))?;
    }
    Ok(marks)
}

fn taken_marks(alloc: Global, ends: &[UploadEnd]) -> Result<Vec<bool>, NoMemory>
    ensures { IfOk result (λ marks. marks.items ≡ map was_taken ends.now) }
{
    let mut marks = Vec::with_capacity(alloc, ends.len())?;
    for end in ends {
        marks.push(was_taken(end))?;
    }
    Ok(marks)
}

fn add_uploads_at(
    alloc: Global,
    out: &mut Vec<u8>,
    told: &ToldUploads,
    places: &[usize],
) -> Result<(), NoMemory>
    ensures { OnOk result (out.new.items ≡ out.old.items ++ flat_map (upload_entry told.now) places.now) }
{
    for place in places {
        add_upload_at(alloc, out, told, *place)?;
    }
    Ok(())
}

#[tactic(auto, unfolding(crate::specs::UploadList::upload_entry))]
fn add_upload_at(
    alloc: Global,
    out: &mut Vec<u8>,
    told: &ToldUploads,
    place: usize,
) -> Result<(), NoMemory>
    ensures { OnOk result (out.new.items ≡ out.old.items ++ upload_entry told.now place) }
{
    let Some(named) = told.named.as_slice().get(place) else {
        return Ok(());
    };
    let Some(end) = told.ends.as_slice().get(place) else {
        return Ok(());
    };
    let words = upload_words(alloc, end)?;
    pieces::add_upload(out, named_name(named), words.as_str())
}

fn named_name(named: &Named) -> &str
    ensures { result.now ≡ named_name named.now }
{
    match named {
        Named::File(name) => name.as_str(),
        Named::Unlisted(word) => word.as_str(),
    }
}

/// Adds how many aren't shown, where so many are.
#[tactic(auto, unfolding(crate::specs::UploadList::more_than))]
pub(crate) fn add_more_than(out: &mut Vec<u8>, most: usize, count: usize) -> Result<(), NoMemory>
    ensures { OnOk result (out.new.items ≡ out.old.items ++ more_than most count) }
{
    if count <= most {
        return Ok(());
    }
    let mut more = Buffer::new();
    pieces::add_more(out, more.format(count - most))
}
