//! Which uploads the words of a call name.
ghost use Rattle.std.specs.Prelude.{◌≡◌, List, ◌++◌, codes, filter, map, nat_eq, string_bytes, IfOk, OnOk};
ghost use Rattle.std.specs.List.{ends_with};
ghost use Rattle.std.specs.List.Sorted.{IsSorted, IsPermutation};
ghost use Rattle.std.specs.Cmp.Lexicographic.{slice_cmp};
ghost use Rattle.std.specs.Ordering.{nat_cmp};
ghost use Rattle.replay_folder.specs.Names.{is_upload_name, folder_front, in_folder, AreOfFolder, NamesWord, NamesAll};
ghost use Rattle.replay_folder.specs.declared.names.Named.{Named as PlainNamed};
ghost use Rattle.replay_folder.specs.declared.names.Named.TheVariants.{File};

use crate::opens::OpensUploads;
use page_tree::{NoMemory, Text};
use std::alloc::{AllocError, Global};
use std::io::ErrorKind;
use warp_server::Words;

/// An upload by its name.
#[derive(Drop)]
pub enum Named {
    /// The path of its file.
    File(Text),
    /// A word of which can't be told whether a folder stands there.
    Unlisted(Text),
}

/// The uploads that these words name: the uploads of a folder by its word, in the order of their names' bytes, and any other word for itself.
pub fn name_uploads<O: OpensUploads>(
    alloc: Global,
    opener: &O,
    words: Words,
) -> Result<Vec<Named>, NoMemory>
    ensures { IfOk result (λ all. NamesAll (O.listed opener.now) words all.items) }
{
    let mut words = words;
    let mut all = Vec::new(alloc);
    while let Some(word) = words.next() {
        add_word(alloc, opener, word.as_str(), &mut all)?;
    }
    Ok(all)
}

// Those of one word more.
fn add_word<O: OpensUploads>(
    alloc: Global,
    opener: &O,
    word: &str,
    all: &mut Vec<Named>,
) -> Result<(), NoMemory>
    ensures { OnOk result ((own : List PlainNamed) × (all.new.items ≡ all.old.items ++ own)
        × NamesWord (O.listed opener.now) word.now own) }
{
    match opener.list(word) {
        Ok(Some(names)) => add_folder(alloc, word, names.into_vec(), all),
        Ok(None) => {
            all.push(Named::File(Text::from_str(alloc, word)?))?;
            Ok(())
        }
        Err(error) => match error.kind() {
            ErrorKind::OutOfMemory => Err(AllocError),
            _ => {
                all.push(Named::Unlisted(Text::from_str(alloc, word)?))?;
                Ok(())
            }
        },
    }
}

// ---- the uploads of a folder

fn add_folder(
    alloc: Global,
    folder: &str,
    names: Vec<Text>,
    all: &mut Vec<Named>,
) -> Result<(), NoMemory>
    ensures { OnOk result ((own : List PlainNamed) × (all.new.items ≡ all.old.items ++ own)
        × AreOfFolder folder.now names.items own) }
{
    let chosen = sorted(choose(alloc, names)?);
    add_names(alloc, folder, chosen.as_slice(), all)
}

// Those that are an upload's.
fn choose(alloc: Global, names: Vec<Text>) -> Result<Vec<Text>, NoMemory>
    ensures { IfOk result (λ chosen. chosen.items ≡ filter is_upload_name names.items) }
{
    let mut chosen = Vec::new(alloc);
    for name in names {
        if is_upload_name(name.as_str()) {
            chosen.push(name)?;
        }
    }
    Ok(chosen)
}

// In the order of their bytes.
fn sorted(mut names: Vec<Text>) -> Vec<Text>
    ensures same { IsPermutation names.items result.items }
    ensures sorted { IsSorted (slice_cmp nat_cmp) result.items }
{
    names.sort_unstable_by(|a, b| a.as_str().cmp(b.as_str()));
    names
}

fn add_names(
    alloc: Global,
    folder: &str,
    names: &[Text],
    all: &mut Vec<Named>,
) -> Result<(), NoMemory>
    ensures { OnOk result (all.new.items ≡ all.old.items ++ map (λ name. File (in_folder folder.now name)) names.now) }
{
    for name in names {
        all.push(Named::File(in_folder(alloc, folder, name.as_str())?))?;
    }
    Ok(())
}

fn in_folder(alloc: Global, folder: &str, name: &str) -> Result<Text, NoMemory>
    ensures { IfOk result (λ path. path ≡ in_folder folder.now name.now) }
{
    let mut path = folder_front(alloc, folder)?;
    path.push_str(name)?;
    Ok(Text::from(path))
}

// With a slash behind it, where it doesn't end with one.
fn folder_front(alloc: Global, folder: &str) -> Result<String, NoMemory>
    ensures { IfOk result (λ front. string_bytes front ≡ folder_front folder.now) }
{
    let mut front = String::from_str(alloc, folder)?;
    if ends_with_slash(folder) {
        return Ok(front);
    }
    front.push('/')?;
    Ok(front)
}

fn is_upload_name(name: &str) -> bool
    ensures { result ≡ is_upload_name name.now }
{
    name.ends_with(".jsonl")
}

fn ends_with_slash(folder: &str) -> bool
    ensures { result ≡ ends_with nat_eq folder.now (codes "/") }
{
    folder.ends_with("/")
}
